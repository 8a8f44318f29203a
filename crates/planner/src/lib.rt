// What a unit holds (its number, its tenancy, its table) and a request sheet, to the case that they spell, and to its plan.
#![tactic(auto)]

ghost use Rattle.std.specs.Prelude.{ℕ, ◌+◌, ◌<◌, ◌≤◌, ◌≡◌, length, take};
ghost use Rattle.mask.specs.Has.{has};
ghost use Rattle.model.specs.Case.{left as left_of, starting};
ghost use Rattle.settings.specs.Table.{Proper};
ghost use Rattle.planner.specs.Asked.{is_out, asked};
ghost use Rattle.planner.specs.Lists.{Asks};
ghost use Rattle.planner.specs.Answered.{Answered};
ghost use Rattle.planner.specs.Parts.{Kept, Columns, Lent, case_lent, handed_out, Solved};

use basics::{BLOCKS, DISKS, Masks};
use field::Fault;
use model::Rule;
use settings::Table;

// What was asked: Q and N, the copies of each block, the cost and the start of each disk. All else is 0 (`Spells`): arrays, as the library
// crates have no heap, and a vector of fixed capacity is a ported crate's, to be trusted anew.
#[derive(Clone, Copy)]
pub struct Spelling {
    pub blocks: usize,
    pub disks: usize,
    pub copies: Masks,
    pub costs: [u32; DISKS],
    pub starts: [u32; DISKS],
}

impl Spelling {
    // No blocks and no disks.
    fn blank() -> Spelling
        ensures { (result.blocks ≡ 0) × (result.disks ≡ 0) }
    {
        Spelling {
            blocks: 0,
            disks: 0,
            copies: [0; BLOCKS],
            costs: [0; DISKS],
            starts: [0; DISKS],
        }
    }

    // The copies of its blocks.
    pub fn copies(&self) -> &[u64]
        requires { self.now.blocks ≤ length self.now.copies }
        ensures { result.now ≡ take self.now.blocks self.now.copies }
    {
        &self.copies[..self.blocks]
    }

    // The costs of its disks.
    pub fn costs(&self) -> &[u32]
        requires { self.now.disks ≤ length self.now.costs }
        ensures { result.now ≡ take self.now.disks self.now.costs }
    {
        &self.costs[..self.disks]
    }

    // The starts of its disks.
    pub fn starts(&self) -> &[u32]
        requires { self.now.disks ≤ length self.now.starts }
        ensures { result.now ≡ take self.now.disks self.now.starts }
    {
        &self.starts[..self.disks]
    }

    // The sheet of the plan of what was asked.
    fn solve(&self, number: u32, tenancy: u32, out: &mut [u8]) -> Result<usize, Fault>
        requires { Lent self.now }
        ensures { Solved number tenancy (case_lent self.now) out.old result out.new }
    {
        // Arrays of fixed length: the library crates have no heap.
        let mut disks = [0u8; BLOCKS];
        let mut short = [0u16; BLOCKS];
        let found = engine::plan(
            self.copies(),
            self.costs(),
            self.starts(),
            &mut disks,
            &mut short,
        );
        plan::write(
            number,
            tenancy,
            found.time,
            &disks[..self.blocks],
            &short[..found.size],
            out,
        )
    }
}

// The case that what a unit holds and a request sheet spell, as lists. That the table is proper is a premise and no invariant of its type:
// its fields are public.
pub fn ask(number: u32, tenancy: u32, table: Table, sheet: &[u8]) -> Result<Spelling, Fault>
    requires { Proper table }
    ensures { Asks (asked number tenancy table sheet.now) (length sheet.now) result }
{
    let mut said = Spelling::blank();
    spell(number, tenancy, table, sheet, &mut said)?;
    Ok(said)
}

// Answers a read request with the sheet of its plan, at the start of a lent buffer. Not by `ask`: a `Spelling` in a `Result` is made and
// moved once more, 17 thousand instructions a request.
pub fn plan_into(
    number: u32,
    tenancy: u32,
    table: Table,
    sheet: &[u8],
    out: &mut [u8],
) -> Result<usize, Fault>
    requires { Proper table }
    ensures { Answered number tenancy (asked number tenancy table sheet.now) out.old result out.new }
{
    let mut said = Spelling::blank();
    spell(number, tenancy, table, sheet, &mut said)?;
    said.solve(number, tenancy, out)
}

// The lists of the case that what a unit holds and a request sheet spell, in a lent place.
fn spell(
    number: u32,
    tenancy: u32,
    table: Table,
    sheet: &[u8],
    said: &mut Spelling,
) -> Result<(), Fault>
    requires { Proper table }
    ensures { Asks (asked number tenancy table sheet.now) (length sheet.now) (handed_out result said.new) }
{
    let out = out_of(table);
    // A match: `?` moves the copies once more, 9 thousand instructions a request.
    let request = match request::read(sheet, number, tenancy, table.disks, out) {
        Ok(request) => request,
        Err(e) => return Err(e),
    };
    let mut copies = request.copies;
    keep(&mut copies[..request.blocks], out);
    let (costs, starts) = columns(table, request.age);
    *said = Spelling {
        blocks: request.blocks,
        disks: table.disks as usize,
        copies,
        costs,
        starts,
    };
    Ok(())
}

// The disks that are out, as one number.
fn out_of(table: Table) -> u64
    requires { Proper table }
    ensures { (d : ℕ) → has result d ≡ is_out table d }
{
    let mut out: u64 = 0;
    for (i, row) in table.rows.iter().enumerate() {
        if row.mark == 1 {
            out = mask::put(out, i);
        }
    }
    out
}

// The copies of each block without the disks that are out.
fn keep(copies: &mut [u64], out: u64)
    ensures { Kept (length copies.old) out copies.old copies.new }
{
    for m in copies.iter_mut() {
        *m = mask::without(*m, out);
    }
}

// What is left of a load at an age: the definition's name in code.
fn left(age: u32, load: u32) -> u32
    ensures { result ≡ left_of age load }
{
    load.saturating_sub(age)
}

// When a disk starts, by the rule.
fn start(rule: Rule, delay: u32, load: u32) -> u32
    requires { delay + load < 4294967296 }
    ensures { result ≡ starting rule delay load }
{
    match rule {
        Rule::Sum => delay + load,
        Rule::Larger => delay.max(load),
    }
}

// The cost of each disk, and its start at an age.
fn columns(table: Table, age: u32) -> ([u32; DISKS], [u32; DISKS])
    requires { Proper table }
    ensures { Columns table age result.0 result.1 }
{
    let mut costs = [0u32; DISKS];
    let mut starts = [0u32; DISKS];
    for (i, row) in table.rows.iter().enumerate() {
        costs[i] = row.cost;
        starts[i] = start(table.rule, row.delay, left(age, row.load));
    }
    (costs, starts)
}
