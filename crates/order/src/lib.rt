// The first schedule in dictionary order, from any schedule.
// cut has what is left of each block's copies, room the disks that have room, and the blocks that are not done stand in rings.
// cut, caps, board, by and dead are lent one by one: some are read, some written; a struct of such loans would be made anew for each call.
#![tactic(auto)]

ghost use Rattle.std.specs.Prelude.{◌<◌, ◌≤◌, ◌≡◌, get_or, length};
ghost use Rattle.basics.specs.Limits.{disks_most, blocks_most};
ghost use Rattle.order.specs.Ordered.{Ordered};
ghost use Rattle.order.specs.Parts.{LowerCopies, Spread};
ghost use Rattle.order.specs.Boards.{Scheduled, Sorting, Trying, Tried, Asked, Done};

use basics::{Capacities, DISKS, Masks, PLACES, Seats, Steps};
use places::Board;
use search::{Hit, Task};

// For each disk, other disks that no block on it can go to.
type Dead = [u64; DISKS];

// Block k to one of the disks of lower, if some schedule has it so; else what the search reached, base with it. room has the disks that
// have room once the block is off its disk.
fn try_lower(
    n: usize,
    q: usize,
    k: usize,
    lower: u64,
    base: u64,
    room: u64,
    cut: &mut Masks,
    caps: &Capacities,
    board: &mut Board,
    by: &mut Steps,
) -> Hit
    requires { Trying n q k lower base room cut.old caps.now board.old by.old }
    ensures { Tried n q k lower room cut.old caps.now board.old cut.new board.new by.new result }
{
    let whole = cut[k];
    cut[k] = lower;
    let o = board.shift(k, n, cut);
    let task = Task {
        n,
        q,
        b: k,
        base,
        bound: k,
        room,
    };
    let hit = search::improve(task, cut, board, by);
    cut[k] = whole;
    if let Hit::Stuck(_) = hit {
        board.shift(k, o, cut);
    }
    hit
}

// The disks of x are dead for the blocks on every other disk.
fn spread(n: usize, x: u64, dead: &mut Dead)
    requires { (n ≤ disks_most) × (length dead.old ≡ disks_most) }
    ensures { Spread n x dead.old dead.new }
{
    for d in 0..n {
        if !mask::held(x, d) {
            dead[d] = mask::either(dead[d], x);
        }
    }
}

// The copies of block k on lower disks that are not dead for its disk.
fn lower_copies(k: usize, cut: &Masks, seats: &Seats, dead: &Dead) -> u64
    requires { (k < blocks_most) × (get_or seats.now k 0 < disks_most) }
    ensures { LowerCopies k cut.now seats.now dead.now result }
{
    let o = seats[k] as usize;
    mask::without(mask::both(cut[k], mask::before(o)), dead[o])
}

// Block k to one of the disks of lower, or they are all dead for its disk; the answer is the disks that have room then.
fn lower_once(
    n: usize,
    q: usize,
    k: usize,
    lower: u64,
    room: u64,
    cut: &mut Masks,
    caps: &Capacities,
    board: &mut Board,
    by: &mut Steps,
    dead: &mut Dead,
) -> u64
    requires { (Sorting n q k room cut.old caps.now board.old by.old dead.old)
        × (k < q) × (LowerCopies k cut.old board.old.seats dead.old lower) }
    ensures { Asked n q k cut.old caps.now board.old cut.new board.new by.new dead.new result }
{
    let o = board.seats[k] as usize;
    let freed = mask::put(room, o);
    match try_lower(n, q, k, lower, dead[o], freed, cut, caps, board, by) {
        Hit::Free(d, _) => board.reopen(n, d, caps, freed),
        Hit::Stuck(x) => {
            spread(n, x, dead);
            room
        }
    }
}

// Block k to the lowest disk that any schedule has for it, the blocks before it as they are. It is bound there: its copies are cut to that
// disk, and it leaves its ring. The answer is the disks that have room.
fn settle(
    n: usize,
    q: usize,
    k: usize,
    room: u64,
    cut: &mut Masks,
    caps: &Capacities,
    board: &mut Board,
    by: &mut Steps,
    dead: &mut Dead,
) -> u64
    requires { (Sorting n q k room cut.old caps.now board.old by.old dead.old) × (k < q) }
    ensures { Done n q k cut.old caps.now cut.new board.new by.new dead.new result }
{
    let mut free = room;
    let mut lower = lower_copies(k, cut, &board.seats, dead);
    // No count tells when: until no lower copy is left to ask for.
    while lower != 0 {
        free = lower_once(n, q, k, lower, free, cut, caps, board, by, dead);
        lower = lower_copies(k, cut, &board.seats, dead);
    }
    cut[k] = mask::only(board.seats[k] as usize);
    board.nodes.unlink(k);
    free
}

// The first schedule; the copies, the rings and out are used up.
pub fn first(n: usize, q: usize, cut: &mut Masks, caps: &Capacities, board: &mut Board)
    requires { Scheduled n q cut.old caps.now board.old }
    ensures { Ordered n q cut.old caps.now board.new.seats }
{
    // Arrays of fixed length: the library crates have no heap.
    let mut dead = [0u64; DISKS];
    let mut by = [0u16; PLACES];
    let mut free = board.open(n, caps);
    for k in 0..q {
        free = settle(n, q, k, free, cut, caps, board, &mut by, &mut dead);
    }
}
