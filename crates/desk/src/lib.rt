// The desk end: lists lent as bytes, one call, one packed answer. `desk_c` exports these functions to C.
#![tactic(auto)]

ghost use Rattle.std.specs.Prelude.{◌<◌, ◌≡◌, ◌≤◌, true, false, MatchResult, take};
ghost use Rattle.basics.specs.Limits.{disks_most};
ghost use Rattle.field.specs.declared.Refusal.TheVariants.{OutOfRange};
ghost use Rattle.field.specs.Refusal.{fault_at};
ghost use Rattle.field.specs.Send.{Sent};
ghost use Rattle.model.specs.declared.Rule.TheVariants.{Sum, Larger};
ghost use Rattle.lent.specs.Numbers.{numbers, usable};
ghost use Rattle.desk.specs.Desk.{settings_draft_of_bytes, marked_draft_of_bytes};
ghost use Rattle.desk.specs.Parts.{usable_rows};
ghost use Rattle.desk.specs.Desk.{tenancy_with, request_draft_of_bytes, Exported, PlanRead};

use basics::{BLOCKS, DISKS};
use field::{Fault, Refusal};
use model::Rule;

// The numbers of a list of costs, loads, delays or marks: so many of 64 places.
// Its places are an array of fixed length: the library crates have no heap.
#[derive(Clone, Copy)]
struct Numbers {
    places: [u32; DISKS],
    count: usize,
    ghost within: { count ≤ disks_most },
}

impl Numbers {
    // Those of four bytes each. A list is looked at before (`whole`): numbers in a `Result` are made and moved once more, for each list.
    fn of(bytes: &[u8]) -> Numbers
        requires { usable 4 disks_most bytes.now ≡ true }
        ensures { take result.count result.places ≡ numbers 4 bytes.now }
    {
        Numbers {
            places: lent::fours(bytes),
            count: bytes.len() / 4,
        }
    }

    // Themselves.
    fn list(&self) -> &[u32]
        ensures { result.now ≡ take self.now.count self.now.places }
    {
        &self.places[..self.count]
    }
}

// Whether a list is one of numbers of so many bytes; 6 where it is broken or too long.
fn whole(bytes: &[u8], width: usize) -> Result<(), Fault>
    requires { 0 < width }
    ensures { MatchResult result
        (λ a. usable width disks_most bytes.now ≡ true)
        (λ f. (usable width disks_most bytes.now ≡ false) × (f ≡ fault_at OutOfRange 0)) }
{
    if !lent::usable(bytes, width, DISKS) {
        return Err(Refusal::OutOfRange.at(0));
    }
    Ok(())
}

// Whether costs, loads and delays are.
fn rows(costs: &[u8], loads: &[u8], delays: &[u8]) -> Result<(), Fault>
    ensures { MatchResult result
        (λ a. usable_rows costs.now loads.now delays.now ≡ true)
        (λ f. (usable_rows costs.now loads.now delays.now ≡ false) × (f ≡ fault_at OutOfRange 0)) }
{
    whole(costs, 4)?;
    whole(loads, 4)?;
    whole(delays, 4)?;
    Ok(())
}

// Writes a settings sheet of a start rule: four bytes for each cost, load and delay. The lists come one by one, as from C
// (`rp_write_settings`).
fn write_settings(
    rule: Rule,
    unit: u32,
    tenancy: u32,
    costs: &[u8],
    loads: &[u8],
    delays: &[u8],
    out: &mut [u8],
) -> Result<usize, Fault>
    ensures { Sent (settings_draft_of_bytes rule unit tenancy costs.now loads.now delays.now)
        out.old result out.new }
{
    rows(costs, loads, delays)?;
    let c = Numbers::of(costs);
    let l = Numbers::of(loads);
    let d = Numbers::of(delays);
    settings::write(rule, unit, tenancy, c.list(), l.list(), d.list(), out)
}

// Writes a settings sheet with marks: four bytes for each cost, load, delay and mark. The rule is a number, as C hands it on. With
// `write_settings` it shares `rows` and `Numbers::of`; the rest is the call of another writer.
fn write_marked(
    unit: u32,
    tenancy: u32,
    rule: u32,
    costs: &[u8],
    loads: &[u8],
    delays: &[u8],
    marks: &[u8],
    out: &mut [u8],
) -> Result<usize, Fault>
    ensures { Sent
        (marked_draft_of_bytes unit tenancy rule costs.now loads.now delays.now marks.now)
        out.old result out.new }
{
    rows(costs, loads, delays)?;
    whole(marks, 4)?;
    let c = Numbers::of(costs);
    let l = Numbers::of(loads);
    let d = Numbers::of(delays);
    let m = Numbers::of(marks);
    settings::write_marked(
        unit,
        tenancy,
        rule,
        c.list(),
        l.list(),
        d.list(),
        m.list(),
        out,
    )
}

// Writes a settings sheet of kind 1: every disk starts at the sum of its delay and load.
pub fn rp_write_settings(
    unit: u32,
    tenancy: u32,
    costs: &[u8],
    loads: &[u8],
    delays: &[u8],
    out: &mut [u8],
) -> u64
    ensures { Exported (settings_draft_of_bytes Sum unit tenancy costs.now loads.now delays.now)
        out.old result out.new }
{
    lent::pack_written(write_settings(Rule::Sum, unit, tenancy, costs, loads, delays, out))
}

// Writes a settings sheet of kind 5: every disk starts at the larger of its delay and load. This and `rp_write_settings` are two names
// that C links.
pub fn rp_write_settings_overlap(
    unit: u32,
    tenancy: u32,
    costs: &[u8],
    loads: &[u8],
    delays: &[u8],
    out: &mut [u8],
) -> u64
    ensures { Exported (settings_draft_of_bytes Larger unit tenancy costs.now loads.now delays.now)
        out.old result out.new }
{
    lent::pack_written(write_settings(Rule::Larger, unit, tenancy, costs, loads, delays, out))
}

// Writes a settings sheet of kind 6: the start rule, 1 for the sum of delay and load and 2 for the larger; four bytes for each cost, load,
// delay and mark, 0 in use and 1 out.
pub fn rp_write_settings_marked(
    unit: u32,
    tenancy: u32,
    rule: u32,
    costs: &[u8],
    loads: &[u8],
    delays: &[u8],
    marks: &[u8],
    out: &mut [u8],
) -> u64
    ensures { Exported
        (marked_draft_of_bytes unit tenancy rule costs.now loads.now delays.now marks.now)
        out.old result out.new }
{
    lent::pack_written(write_marked(unit, tenancy, rule, costs, loads, delays, marks, out))
}

// The tenancy that the writer takes: 0, which `judge` refuses, where a list ends inside a number (the definition's `tenancy_with`).
fn tenancy_of(tenancy: u32, copies: &[u8]) -> u32
    ensures { result ≡ tenancy_with tenancy copies.now }
{
    if 0 < copies.len() % 8 { 0 } else { tenancy }
}

// Writes a read request. Its other fields are judged before its list is read.
fn write_request(
    kind: u32,
    unit: u32,
    tenancy: u32,
    age: u32,
    disks: u32,
    copies: &[u8],
    out: &mut [u8],
) -> Result<usize, Fault>
    ensures { Sent (request_draft_of_bytes kind unit tenancy age disks copies.now) out.old result
        out.new }
{
    let n = copies.len() / 8;
    request::judge(kind, tenancy_of(tenancy, copies), age, disks, n)?;
    let blocks = lent::eights(copies);
    request::write(kind, unit, tenancy, age, disks, &blocks[..n], out)
}

// Writes a read request of kind 2 or 4, with the age of the settings, for a unit of so many disks: eight bytes for each block, bit d
// standing for disk d.
pub fn rp_write_request(
    kind: u32,
    unit: u32,
    tenancy: u32,
    age: u32,
    disks: u32,
    copies: &[u8],
    out: &mut [u8],
) -> u64
    ensures { Exported (request_draft_of_bytes kind unit tenancy age disks copies.now) out.old result
        out.new }
{
    lent::pack_written(write_request(kind, unit, tenancy, age, disks, copies, out))
}

// Reads a plan sheet: a byte for each block's disk, two for each block of the short set.
pub fn rp_read_plan(
    unit: u32,
    tenancy: u32,
    sheet: &[u8],
    disks: &mut [u8],
    short: &mut [u8],
) -> u64
    ensures { PlanRead unit tenancy sheet.now disks.old short.old result
        disks.new short.new }
{
    let mut blocks = [0u16; BLOCKS];
    let k = lent::room(short);
    let read = plan::read(sheet, unit, tenancy, disks, &mut blocks[..k]);
    if let Ok(head) = read {
        lent::put_pairs(&blocks, head.size, short);
    }
    lent::pack_plan(read)
}
