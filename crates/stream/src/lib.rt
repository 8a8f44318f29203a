// Framed in a stream of bytes: a sheet behind its length, and one of the shelf's calls.
#![tactic(auto)]

ghost use Rattle.std.specs.Prelude.{◌≡◌};
ghost use Rattle.stream.specs.Call.{asked, behind, Framed};
ghost use Rattle.stream.specs.Frame.{at_span, Within, Spans};
ghost use Rattle.stream.specs.Frame.{sheet as framed_sheet};

use basics::REQUEST_MOST;
use field::{Fault, Refusal};

// The buffer that a call may lend for a plan, at most.
pub const ROOM_MOST: usize = 4096;

// Where a sheet stands: the place of its first byte, and the place after its last.
// No slice: `sheet_unique` and `call_unique` fix the places.
#[derive(Clone, Copy, Debug, PartialEq, Eq)]
pub struct Span {
    pub from: usize,
    pub to: usize,
}

impl Span {
    // The bytes that stand there, of an input that it lies within.
    pub fn of(self, s: &[u8]) -> &[u8]
        requires { Within s.now self.from self.to }
        ensures { result.now ≡ at_span s.now self }
    {
        &s[self.from..self.to]
    }
}

// What a call in the shelf's stream asks, and where its sheet stands.
#[derive(Clone, Copy, Debug, PartialEq, Eq)]
pub enum Call {
    Rent(u32),
    Settings(Span),
    Request(usize, Span),
    Return(u32),
    Why(u32, u32, Span),
}

// The length of a sheet, and that sheet.
pub fn sheet(s: &[u8], at: usize) -> Result<Span, Fault>
    ensures { Spans s.now (framed_sheet s.now at) result }
{
    let (size, from) = field::inside(s, at, 0, REQUEST_MOST as u32, Refusal::OutOfRange)?;
    if s.len() - from < size as usize {
        return Err(Refusal::SheetEnds.at(s.len()));
    }
    Ok(Span {
        from,
        to: from + size as usize,
    })
}

// What follows the call's number, and the place after it: each call has fields of its own, and the numbers are the stream's.
fn follow(s: &[u8], call: u32, at: usize) -> Result<(Call, usize), Fault>
    ensures { Framed s.now (behind call s.now at) result }
{
    match call {
        1 => {
            let (tenancy, end) = field::number(s, at)?;
            Ok((Call::Rent(tenancy), end))
        }
        2 => {
            let span = sheet(s, at)?;
            Ok((Call::Settings(span), span.to))
        }
        3 => {
            let (room, next) = field::inside(s, at, 0, ROOM_MOST as u32, Refusal::OutOfRange)?;
            let span = sheet(s, next)?;
            Ok((Call::Request(room as usize, span), span.to))
        }
        4 => {
            let (tenancy, end) = field::number(s, at)?;
            Ok((Call::Return(tenancy), end))
        }
        5 => {
            let (block, second) = field::number(s, at)?;
            let (disk, next) = field::number(s, second)?;
            let span = sheet(s, next)?;
            Ok((Call::Why(block, disk, span), span.to))
        }
        _ => Err(Refusal::WrongKind.at(0)),
    }
}

// One call, and the place after it. Where it is refused with 1, more bytes may complete it.
pub fn read_call(s: &[u8]) -> Result<(Call, usize), Fault>
    ensures { Framed s.now (asked s.now 0) result }
{
    let (call, at) = field::number(s, 0)?;
    follow(s, call, at)
}
