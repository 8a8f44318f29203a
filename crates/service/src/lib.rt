// The shelf's service: a turn of the shelf from the start of what has been read so far, done by the unit.
#![tactic(auto)]

ghost use Rattle.std.specs.Prelude.{◌≤◌, ◌&&◌, ◌≡◌, eqb, length};
ghost use Rattle.stream.specs.Call.{asked_by, requests, whys, room_most};
ghost use Rattle.field.specs.Refusal.{note_of};
ghost use Rattle.field.specs.Sheet.{refused};
ghost use Rattle.unit.specs.Sound.{Sound};
ghost use Rattle.unit.specs.Told.{told_verdict};
ghost use Rattle.line.specs.Printed.{Printed};
ghost use Rattle.service.specs.Shelf.{due, closed, unit_of, opened, Turned};
ghost use Rattle.service.specs.Shelf.{waits as waits_of};
ghost use Rattle.service.specs.Parts.{verdict_line, Read, Answers, Leaves, Answered};

use field::{Fault, Refusal};
use line::{Line, Word, refuse_at, say};
use stream::{Call, ROOM_MOST};
use unit::{Done, Unit};

// A unit as a process: its number is due first, and then its calls.
#[derive(Clone, Copy)]
pub struct Shelf {
    unit: Option<Unit>,
}

// Where a turn leaves the shelf: what was due is done; more bytes are wanted; nothing follows.
#[derive(Clone, Copy, Debug, PartialEq, Eq)]
pub enum Next {
    Served,
    Wants,
    Done,
}

// What a turn comes to: the bytes used, the length of the line, and the shelf afterwards. Where nothing is used or printed they are 0, as
// `Comes` has it.
#[derive(Clone, Copy)]
pub struct Turn {
    pub next: Next,
    pub used: usize,
    pub length: usize,
    pub shelf: Shelf,
}

impl Shelf {
    // No unit's number has been read.
    pub fn new() -> Shelf
        ensures { result ≡ closed }
    {
        Shelf { unit: None }
    }
}

// A word where a call was accepted, else its refusal.
fn verdict(w: Word, answer: Result<(), Fault>, line: &mut Line) -> usize
    ensures { Printed (verdict_line w (told_verdict answer)) line.old result line.new }
{
    match answer {
        Ok(()) => say(w, line),
        Err(e) => refuse_at(e, line),
    }
}

// A request, with so much room for its plan sheet.
fn request(u: Unit, room: usize, sheet: &[u8], line: &mut Line) -> usize
    requires { Sound u × (room ≤ room_most) }
    ensures { Answers u (requests room sheet.now) line.old result u line.new }
{
    // Arrays of fixed length: the library crates have no heap.
    let mut out = [0u8; ROOM_MOST];
    match u.request(sheet, &mut out[..room]).answer {
        Ok(n) => line::sheet_line(&out[..n], line),
        Err(e) => refuse_at(e, line),
    }
}

// Why a request's plan reads a block from a disk, or doesn't.
fn explain(u: Unit, sheet: &[u8], block: u32, disk: u32, line: &mut Line) -> usize
    requires { Sound u }
    ensures { Answers u (whys block disk sheet.now) line.old result u line.new }
{
    match why::explain(u, sheet, block, disk).answer {
        Ok(r) => say(Word::Reason(u32::from(r), r.time()), line),
        Err(e) => refuse_at(e, line),
    }
}

// The turn of a call that was done: a word where it was accepted, else its refusal.
fn served(w: Word, done: &Done, used: usize, line: &mut Line) -> Turn
    ensures { Leaves used done.now.unit result × Printed (verdict_line w (told_verdict done.now.answer)) line.old result.length line.new }
{
    Turn {
        next: Next::Served,
        used,
        length: verdict(w, done.answer, line),
        shelf: Shelf {
            unit: Some(done.unit),
        },
    }
}

// What the unit answers to a call that was read, as a turn that ends at a place. Each arm does another thing: a match and no table. Units
// and their answers are looked at where they stand: by value, each hand copied a kilobyte. `Sound` is a premise: theorems equate units
// (`rent_same`, `rent_new`), and a ghost fact in `Unit` would be equated with them.
fn answer(u: &Unit, s: &[u8], call: Call, used: usize, line: &mut Line) -> Turn
    requires { Sound u.now × Read s.now call }
    ensures { Answered u.now (asked_by s.now call) used line.old result line.new }
{
    match call {
        Call::Rent(tenancy) => served(Word::Rented, &u.rent(tenancy), used, line),
        Call::Settings(sheet) => served(Word::Set, &u.settings(sheet.of(s)), used, line),
        Call::Request(room, sheet) => Turn {
            next: Next::Served,
            used,
            length: request(*u, room, sheet.of(s), line),
            shelf: Shelf { unit: Some(*u) },
        },
        Call::Return(tenancy) => served(Word::Returned, &u.give_back(tenancy), used, line),
        Call::Why(block, disk, sheet) => Turn {
            next: Next::Served,
            used,
            length: explain(*u, sheet.of(s), block, disk, line),
            shelf: Shelf { unit: Some(*u) },
        },
    }
}

// Whether more bytes may complete what was refused.
fn waits(e: Fault, ended: bool) -> bool
    ensures { result ≡ waits_of ended (note_of e) }
{
    e.refusal == Refusal::SheetEnds && !ended
}

// Whether the input ends here between two calls.
fn between_calls(shelf: &Shelf, s: &[u8]) -> bool
    ensures { result ≡ (opened shelf.now && eqb (length s.now) 0) }
{
    shelf.unit.is_some() && s.is_empty()
}

// Nothing whole is there. More bytes may complete it, if any can come; else the shelf is done, with a line if the stream is damaged.
fn unserved(shelf: &Shelf, s: &[u8], e: Fault, ended: bool, line: &mut Line) -> Turn
    ensures { Turned shelf.now s.now ended (refused (note_of e)) line.old result line.new }
{
    let mut turn = Turn {
        next: Next::Done,
        used: 0,
        length: 0,
        shelf: *shelf,
    };
    if waits(e, ended) {
        turn.next = Next::Wants;
    } else if !between_calls(shelf, s) {
        turn.length = say(Word::Stopped(u32::from(e.refusal)), line);
    }
    turn
}

// What stands next in the bytes, told whether more can come: the unit's number, and then a call. Two matches and no `?`: a `Turn` holds a
// unit, which a `Result` clears and moves once more.
pub fn serve(shelf: Shelf, s: &[u8], ended: bool, line: &mut Line) -> Turn
    requires { Sound (unit_of shelf) }
    ensures { Turned shelf s.now ended (due (opened shelf) s.now 0) line.old result line.new }
{
    match &shelf.unit {
        Some(u) => match stream::read_call(s) {
            Ok((call, used)) => answer(u, s, call, used, line),
            Err(e) => unserved(&shelf, s, e, ended, line),
        },
        None => match field::number(s, 0) {
            Ok((number, used)) => Turn {
                next: Next::Served,
                used,
                length: 0,
                shelf: Shelf {
                    unit: Some(Unit::new(number)),
                },
            },
            Err(e) => unserved(&shelf, s, e, ended, line),
        },
    }
}
