// The bench: an input of unit, tenancy, settings sheet and read request to its line.
#![tactic(auto)]

ghost use Rattle.console.specs.Bench.{bench_input, Tells};
ghost use Rattle.console.specs.Parts.{Rented, Shows, Replies, Readied};

use basics::{BLOCKS, PLAN_MOST, REQUEST_MOST};
use field::{Fault, Refusal};
use line::{Line, refuse};
use stream::{Span, sheet};
use unit::Unit;

// The bytes of the longest input: unit and tenancy, and twice a length and a sheet.
pub const INPUT_MOST: usize = 5 + 5 + (2 + REQUEST_MOST) + (2 + REQUEST_MOST);

// The line of a plan sheet, from the sheet itself.
fn show(unit: u32, tenancy: u32, sheet: &[u8], line: &mut Line) -> usize
    ensures { Shows unit tenancy sheet.now line.old result line.new }
{
    // Arrays of fixed length: the library crates have no heap.
    let mut disks = [0u8; BLOCKS];
    let mut short = [0u16; BLOCKS];
    match plan::read(sheet, unit, tenancy, &mut disks, &mut short) {
        Ok(h) => line::plan_line(
            unit,
            tenancy,
            h.time,
            &disks[..h.blocks],
            &short[..h.size],
            line,
        ),
        Err(e) => refuse(e, line),
    }
}

// The request, with room for the longest plan.
fn ask(u: Unit, request: &[u8], line: &mut Line) -> usize
    requires { Rented u }
    ensures { Replies u request.now line.old result line.new }
{
    let mut sheet = [0u8; PLAN_MOST];
    match u.request(request, &mut sheet).answer {
        Ok(n) => show(u.number(), u.tenancy(), &sheet[..n], line),
        Err(e) => refuse(e, line),
    }
}

// A new unit that is rented and has its settings, and where the request to it stands; the first refusal stands.
fn ready(input: &[u8]) -> Result<(Unit, Span), Fault>
    ensures { Readied input.now (bench_input input.now 0) result }
{
    let (number, second) = field::number(input, 0)?;
    let (tenancy, at) = field::number(input, second)?;
    let rented = Unit::new(number).rent(tenancy);
    rented.answer?;
    let settings = sheet(input, at)?;
    let set = rented.unit.settings(settings.of(input));
    set.answer?;
    let request = sheet(input, settings.to)?;
    // Here and not by `field::end`: so one value says what is refused (`must-fail/extra`).
    if request.to != input.len() {
        return Err(Refusal::BytesFollow.at(request.to));
    }
    Ok((set.unit, request))
}

// Stops at the first refusal.
pub fn bench(input: &[u8], line: &mut Line) -> usize
    ensures { Tells (bench_input input.now 0) line.old result line.new }
{
    match ready(input) {
        Ok((u, request)) => ask(u, request.of(input), line),
        Err(e) => refuse(e, line),
    }
}
