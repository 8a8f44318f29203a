// The settings sheet: kind 1, 5 or 6, unit, tenancy, disk count N, with kind 6 the start rule, then for each disk its cost, load and delay,
// with kind 6 its mark.
#![tactic(auto)]

ghost use Rattle.std.specs.Prelude.{◌≡◌, ◌≤◌, ◌<◌, eqb, length, slice_index_or};
ghost use Rattle.basics.specs.Limits.{disks_most};
ghost use Rattle.field.specs.Field.{whole};
ghost use Rattle.field.specs.Pen.{Lays};
ghost use Rattle.field.specs.Put.{spell_all};
ghost use Rattle.field.specs.Send.{Sent};
ghost use Rattle.field.specs.Told.{told};
ghost use Rattle.settings.specs.Kind.{kind_number, Kinded};
ghost use Rattle.settings.specs.Row.{mark, row, no_disk, row_bytes};
ghost use Rattle.settings.specs.Table.{no_table};
ghost use Rattle.settings.specs.Sheet.{rule as rule_of, heading as heading_of, body as body_of, settings_sheet};
ghost use Rattle.settings.specs.Told.{Told};
ghost use Rattle.settings.specs.Draft.{kind_of, heading_bytes};
ghost use Rattle.settings.specs.Draft.{sheet_draft, settings_draft, marked_draft};
ghost use Rattle.settings.specs.Parts.{FitOr6, level, rows_in, told_rule, row_width, rows_width};

use basics::{COST_MOST, DELAY_MOST, DISKS, LOAD_MOST};
use field::{Fault, Field, Pen, Refusal};
use model::Rule;

// One disk: the cost of a block, the load when the settings were measured, the delay, and its mark: 0 in use, 1 out.
#[derive(Clone, Copy)]
pub struct Row {
    pub cost: u32,
    pub load: u32,
    pub delay: u32,
    // A number, as `marks` and `no_disk` of specs/ and the theorems over them have it.
    pub mark: u32,
}

// N disks, and when they start; the rows from N on are 0, as the theorems over tables have them (`Proper`).
#[derive(Clone, Copy)]
pub struct Table {
    pub disks: u32,
    pub rule: Rule,
    pub rows: [Row; DISKS],
}

// The kind of a sheet: all disks start at the sum, or at the larger, or as the sheet says, with marks.
#[derive(Clone, Copy)]
enum Kind {
    Sum,
    Larger,
    Marked,
}

// What stands before the rows: the kind, N, and the start rule.
#[derive(Clone, Copy)]
struct Head {
    kind: Kind,
    disks: u32,
    rule: Rule,
}

// The rows of a draft: their costs, loads, delays and marks.
// `level` is a premise and no invariant: lists come from a caller, of any lengths, until `check` has looked.
#[derive(Clone, Copy)]
struct Lists<'a> {
    costs: &'a [u32],
    loads: &'a [u32],
    delays: &'a [u32],
    marks: &'a [u32],
}

// No settings yet: N is 0, the rule is the sum, all rows are 0, as `no_table` has them.
pub fn empty() -> Table
    ensures { result ≡ no_table }
{
    let zero = Row {
        cost: 0,
        load: 0,
        delay: 0,
        mark: 0,
    };
    Table {
        disks: 0,
        rule: Rule::Sum,
        rows: [zero; DISKS],
    }
}

// The number of a kind.
impl From<Kind> for u32 {
    ghost from_gives = { λ k n. n ≡ kind_number k };

    fn from(kind: Kind) -> u32 {
        match kind {
            Kind::Sum => 1,
            Kind::Larger => 5,
            Kind::Marked => 6,
        }
    }
}

// The kind of a number, as a sheet has it.
impl TryFrom<u32> for Kind {
    type Error = Refusal;

    ghost try_from_gives = { Kinded };

    fn try_from(number: u32) -> Result<Kind, Refusal> {
        match number {
            1 => Ok(Kind::Sum),
            5 => Ok(Kind::Larger),
            6 => Ok(Kind::Marked),
            _ => Err(Refusal::WrongKind),
        }
    }
}

// The kind that says a rule.
impl From<Rule> for Kind {
    ghost from_gives = { λ r k. kind_number k ≡ kind_of r };

    fn from(rule: Rule) -> Kind {
        match rule {
            Rule::Sum => Kind::Sum,
            Rule::Larger => Kind::Larger,
        }
    }
}

// The mark of a disk at a place, a field of kind 6 alone: 0 where there is none, as the definition's `mark` gives it.
fn mark_at(s: &[u8], at: usize, kind: Kind) -> Field
    ensures { told result ≡ mark (kind_number kind) s.now at }
{
    match kind {
        Kind::Sum | Kind::Larger => Ok((0, at)),
        Kind::Marked => field::inside(s, at, 0, 1, Refusal::BadAmount),
    }
}

// A row at a place of a sheet of a kind.
fn row_at(s: &[u8], at: usize, kind: Kind) -> Result<(Row, usize), Fault>
    ensures { told result ≡ row (kind_number kind) s.now at }
{
    let (cost, second) = field::inside(s, at, 1, COST_MOST, Refusal::BadAmount)?;
    let (load, third) = field::inside(s, second, 0, LOAD_MOST, Refusal::BadAmount)?;
    let (delay, fourth) = field::inside(s, third, 0, DELAY_MOST, Refusal::BadAmount)?;
    let (mark, next) = mark_at(s, fourth, kind)?;
    let row = Row {
        cost,
        load,
        delay,
        mark,
    };
    Ok((row, next))
}

// The start rule at a place, a field of kind 6 alone: the other kinds say it.
fn rule_at(s: &[u8], at: usize, kind: Kind) -> Result<(Rule, usize), Fault>
    ensures { told_rule result ≡ rule_of (kind_number kind) s.now at }
{
    match kind {
        Kind::Sum => Ok((Rule::Sum, at)),
        Kind::Larger => Ok((Rule::Larger, at)),
        Kind::Marked => {
            let (number, next) = field::number(s, at)?;
            let rule = Rule::try_from(number).map_err(|_| Refusal::BadAmount.at(at))?;
            Ok((rule, next))
        }
    }
}

// All before the rows.
// Unit and tenancy one by one: two numbers of the sheet's opening, each looked at once; a struct would be made and opened at each call.
fn heading(s: &[u8], unit: u32, tenancy: u32) -> Result<(Head, usize), Fault>
    ensures { told result ≡ heading_of unit tenancy s.now 0 }
{
    let (number, at) = field::opening(s, &[1, 5, 6], unit, tenancy)?;
    // `opening` takes these three alone: numbers, since `field` knows no sheet's kinds.
    let kind = Kind::try_from(number).unwrap();
    let (disks, next) = field::inside(s, at, 1, DISKS as u32, Refusal::OutOfRange)?;
    let (rule, e) = rule_at(s, next, kind)?;
    Ok((Head { kind, disks, rule }, e))
}

// The rows from a place on, and then the end of the sheet.
fn body(s: &[u8], start: usize, head: Head) -> Result<Table, Fault>
    requires { head.disks ≤ disks_most }
    ensures { Told (length s.now) (whole (body_of head) s.now start) result }
{
    let Head { kind, disks, rule } = head;
    let mut rows = empty().rows;
    let mut at = start;
    for slot in &mut rows[..disks as usize] {
        let (row, next) = row_at(s, at, kind)?;
        *slot = row;
        at = next;
    }
    field::end(s, at)?;
    Ok(Table { disks, rule, rows })
}

// Reads a settings sheet for a unit and its tenancy; 0 stands for no tenancy, as in document 01, whose tenancies are 1 and more.
pub fn read(s: &[u8], unit: u32, tenancy: u32) -> Result<Table, Fault>
    ensures { Told (length s.now) (settings_sheet unit tenancy s.now 0) result }
{
    let (head, at) = heading(s, unit, tenancy)?;
    body(s, at, head)
}

impl Kind {
    // Whether the start rule and the marks are fields of its sheets.
    fn marked(self) -> bool
        ensures { result ≡ eqb (kind_number self) 6 }
    {
        matches!(self, Kind::Marked)
    }
}

impl Row {
    // The bytes of the row on a sheet of a kind; none where a value is out of its range.
    fn width(self, kind: Kind) -> Option<usize>
        ensures { result ≡ row_width (kind_number kind) self }
    {
        if self.cost < 1
            || COST_MOST < self.cost
            || LOAD_MOST < self.load
            || DELAY_MOST < self.delay
            || 1 < self.mark
        {
            return None;
        }
        Some(
            number::width(self.cost)
                + number::width(self.load)
                + number::width(self.delay)
                + field::width_if(kind.marked(), self.mark),
        )
    }

    // Puts the row on a sheet of a kind.
    fn put(self, kind: Kind, pen: &mut Pen)
        ensures { Lays (row_bytes (kind_number kind) self) pen.old pen.new }
    {
        pen.put(self.cost);
        pen.put(self.load);
        pen.put(self.delay);
        pen.put_if(kind.marked(), self.mark);
    }
}

impl Lists<'_> {
    // Refused where there is no tenancy, the lists are not of one length, or N is out of its range.
    fn check(self, tenancy: u32) -> Result<(), Fault>
        ensures { FitOr6 tenancy self.entry result }
    {
        let n = self.costs.len();
        let (loads, delays, marks) = (self.loads.len(), self.delays.len(), self.marks.len());
        if tenancy == 0 || loads != n || delays != n || marks != n || n < 1 || DISKS < n {
            return Err(Refusal::OutOfRange.at(0));
        }
        Ok(())
    }

    // A disk's row.
    fn row(self, disk: usize) -> Row
        requires level { level self }
        requires below { disk < length self.costs.now }
        ensures { result ≡ slice_index_or (rows_in self.entry) disk no_disk }
    {
        Row {
            cost: self.costs[disk],
            load: self.loads[disk],
            delay: self.delays[disk],
            mark: self.marks[disk],
        }
    }

    // The bytes of all rows; none where a value is out of its range.
    fn rows_width(self, kind: Kind) -> Option<usize>
        requires level { level self }
        requires few { length self.costs.now ≤ disks_most }
        ensures { result ≡ rows_width (kind_number kind) (rows_in self.entry) }
    {
        let mut total = 0;
        for disk in 0..self.costs.len() {
            total += self.row(disk).width(kind)?;
        }
        Some(total)
    }

    // Puts all rows on a sheet of a kind.
    fn put_rows(self, kind: Kind, pen: &mut Pen)
        requires { level self }
        ensures { Lays (spell_all (row_bytes (kind_number kind)) (rows_in self.entry)) pen.old pen.new }
    {
        for disk in 0..self.costs.len() {
            self.row(disk).put(kind, pen);
        }
    }
}

// Puts the fields before the rows. The rule is a number, as C hands it on (`write_marked`).
fn put_heading(kind: Kind, unit: u32, tenancy: u32, disks: u32, rule: u32, pen: &mut Pen)
    ensures { Lays (heading_bytes (kind_number kind) unit tenancy disks rule) pen.old pen.new }
{
    pen.opening(kind.into(), unit, tenancy);
    pen.put(disks);
    pen.put_if(kind.marked(), rule);
}

// Writes the sheet of a kind, with a start rule: a number, as C hands it on; 15 is refused behind 6.
fn send(
    kind: Kind,
    unit: u32,
    tenancy: u32,
    rule: u32,
    lists: Lists,
    out: &mut [u8],
) -> Result<usize, Fault>
    ensures { Sent
        (sheet_draft (kind_number kind) unit tenancy rule
        lists.entry.costs.now lists.entry.loads.now lists.entry.delays.now lists.entry.marks.now)
        out.old result out.new }
{
    lists.check(tenancy)?;
    if Rule::try_from(rule).is_err() {
        return Err(Refusal::BadAmount.at(0));
    }
    let rows = lists.rows_width(kind).ok_or(Refusal::BadAmount.at(0))?;
    // Kind and N are one byte each.
    let length = 2
        + number::width(unit)
        + number::width(tenancy)
        + field::width_if(kind.marked(), rule)
        + rows;
    if out.len() < length {
        return Err(Refusal::NoRoom.at(length));
    }
    let mut pen = Pen { out, at: 0 };
    let disks = lists.costs.len() as u32;
    put_heading(kind, unit, tenancy, disks, rule, &mut pen);
    lists.put_rows(kind, &mut pen);
    Ok(pen.at)
}

// Writes a settings sheet of a start rule and the disks' costs, loads and delays: all disks are in use. The lists come one by one, as C
// hands them on (`rp_write_settings`).
pub fn write(
    rule: Rule,
    unit: u32,
    tenancy: u32,
    costs: &[u32],
    loads: &[u32],
    delays: &[u32],
    out: &mut [u8],
) -> Result<usize, Fault>
    ensures { Sent (settings_draft rule unit tenancy costs.now loads.now delays.now)
        out.old result out.new }
{
    if DISKS < costs.len() {
        return Err(Refusal::OutOfRange.at(0));
    }
    let marks = [0u32; DISKS];
    let lists = Lists {
        costs,
        loads,
        delays,
        marks: &marks[..costs.len()],
    };
    send(rule.into(), unit, tenancy, rule.into(), lists, out)
}

// Writes a settings sheet of kind 6: the start rule's number, and the disks' costs, loads, delays and marks, one by one as C hands them on.
pub fn write_marked(
    unit: u32,
    tenancy: u32,
    // A number, as the C interface has it.
    rule: u32,
    costs: &[u32],
    loads: &[u32],
    delays: &[u32],
    marks: &[u32],
    out: &mut [u8],
) -> Result<usize, Fault>
    ensures { Sent
        (marked_draft unit tenancy rule costs.now loads.now delays.now marks.now)
        out.old result out.new }
{
    let lists = Lists {
        costs,
        loads,
        delays,
        marks,
    };
    send(Kind::Marked, unit, tenancy, rule, lists, out)
}
