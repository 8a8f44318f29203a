// As many blocks on disks as there is room for.
#![tactic(auto)]

ghost use Rattle.std.specs.Prelude.{◌≡◌, ◌+◌, ◌<◌, get_or};
ghost use Rattle.fill.specs.Boards.{Packing, Packed, Ground};

use basics::{Capacities, Masks, PLACES, Steps};
use places::Board;
use search::{Hit, Task};

// What is known of the disks: those that have room, and some that are full and closed.
#[derive(Clone, Copy)]
struct Known {
    room: u64,
    closed: u64,
}

// Block b, which is on no disk, on one, if there is a way. The arrays that do not travel with the board are lent each in its own way, here
// and in timing and order: a struct of such loans would be made anew for each call.
fn place_one(
    n: usize,
    q: usize,
    b: usize,
    masks: &Masks,
    caps: &Capacities,
    board: &mut Board,
    by: &mut Steps,
    known: Known,
) -> Known
    requires { (Ground n q b masks.now caps.now board.old by.old known) × (b < q) × (get_or board.old.seats b 0 ≡ n) }
    ensures { Ground n q (b + 1) masks.now caps.now board.new by.new result }
{
    let Known { room, closed } = known;
    let task = Task {
        n,
        q,
        b,
        base: closed,
        bound: 0,
        room,
    };
    match search::improve(task, masks, board, by) {
        Hit::Free(d, _) => Known {
            room: board.reopen(n, d, caps, room),
            closed,
        },
        Hit::Stuck(x) => Known { room, closed: x },
    }
}

// As many blocks on disks as there is room for; the disks reached from those left over.
pub fn place_all(n: usize, q: usize, masks: &Masks, caps: &Capacities, board: &mut Board) -> u64
    requires { Packing n q masks.now caps.now board.old }
    ensures { Packed n q masks.now caps.now board.new result }
{
    // Arrays of fixed length: the library crates have no heap.
    let mut by = [0u16; PLACES];
    let mut known = Known {
        room: board.open(n, caps),
        closed: 0,
    };
    for b in 0..q {
        if board.seats[b] as usize == n {
            known = place_one(n, q, b, masks, caps, board, &mut by, known);
        }
    }
    known.closed
}
