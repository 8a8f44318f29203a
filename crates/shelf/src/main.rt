// The shelf: a unit as a process. It reads the unit's number and then calls to the end of input, and prints a line for each at once.
#![tactic(auto)]

ghost use Rattle.std.specs.Prelude.{◌≤◌, length};
ghost use Rattle.shelf.specs.Parts.{Shifts};

use line::LINE_MOST;
use service::{Next, Shelf};
use wire::{Failed, Input};

// The bytes that are read and not used yet: more than the longest call.
const BUFFER: usize = 16384;

// Moves the bytes that are not used yet to the start, and answers how many there are.
fn shift(buf: &mut [u8], used: usize, have: usize) -> usize
    requires { (used ≤ have) × (have ≤ length buf.old) }
    ensures { Shifts buf.old used have result buf.new }
{
    buf.copy_within(used..have, 0);
    have - used
}

// A turn, its line, and then the next bytes, until nothing follows, a line is lost or a read fails. A proved loop has to end, and
// nothing says that the input does: it takes at most so many turns as no run uses up.
fn run(rt: &HostRuntime) -> Result<(), Failed> {
    let mut stdin = rt.stdin();
    // No memory is asked for, so that none can run out.
    let mut buf = [0u8; BUFFER];
    let mut line = [0u8; LINE_MOST];
    let mut shelf = Shelf::new();
    let mut have: usize = 0;
    let mut ended = false;
    for _ in 0..u64::MAX {
        let turn = service::serve(shelf, &buf[..have], ended, &mut line);
        wire::print(rt, &line[..turn.length])?;
        shelf = turn.shelf;
        match turn.next {
            Next::Served => have = shift(&mut buf, turn.used, have),
            Next::Wants => match wire::read_behind(rt, &mut stdin, &mut buf, have)? {
                Input::Bytes(n) => have += n,
                Input::Later => {}
                Input::End => ended = true,
            },
            Next::Done => break,
        }
    }
    Ok(())
}

// What failed is told by then, and the status is the same.
fn main(rt: HostRuntime) {
    let _ = run(&rt);
}
