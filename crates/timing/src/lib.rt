// The least time, and the short set just before it.
#![tactic(auto)]

ghost use Rattle.std.specs.Prelude.{◌≡◌, ◌<◌, ◌≤◌};
ghost use Rattle.basics.specs.Limits.{blocks_most};
ghost use Rattle.places.specs.Table.{Copies};
ghost use Rattle.places.specs.Among.{inside};
ghost use Rattle.capacity.specs.Rated.{Priced};
ghost use Rattle.timing.specs.Parts.{count_from, Tight};
ghost use Rattle.timing.specs.Boards.{Blank, Timed, Least, Restored, SoFar, Raising, Raised, Turned, Filling, FilledAt};

use basics::{Capacities, Masks, PLACES, Steps};
use capacity::Rates;
use places::Board;
use search::{Hit, Task};

// What is asked for: q blocks read from n disks, at the disks' rates.
#[derive(Clone, Copy)]
pub struct Demand<'a> {
    pub n: usize,
    pub q: usize,
    pub rates: Rates<'a>,
}

// A time, and the disks that have room then.
#[derive(Clone, Copy)]
struct Moment {
    time: u32,
    room: u64,
}

// Whether all copies of a block are in x.
pub fn all_in(copies: u64, x: u64) -> bool
    ensures { result ≡ inside copies x }
{
    mask::without(copies, x) == 0
}

// How many blocks from b on have all copies in x.
fn count_among(b: usize, q: usize, masks: &Masks, x: u64) -> u64
    requires { (b ≤ q) × (q ≤ blocks_most) }
    ensures { result ≡ count_from b q masks.now x }
{
    let mut total: u64 = 0;
    // No `filter` and `count`: tried, and took three times the instructions, block by block and not four at a time.
    for i in b..q {
        if all_in(masks[i], x) {
            total += 1;
        }
    }
    total
}

// A later time: the disks of x are full, so the blocks that have all copies there are short, by block b and those after it, until the disks
// have room for these too (Hall's theorem).
fn raise(
    demand: Demand,
    b: usize,
    t: u32,
    x: u64,
    masks: &Masks,
    caps: &mut Capacities,
    board: &Board,
) -> Moment
    requires { Raising demand b masks.now t x caps.old }
    ensures { Raised demand.entry b masks.now t x caps.new board.now.counts result }
{
    let Demand { n, q, rates } = demand;
    let time = capacity::earliest(n, rates, t, x, count_among(b, q, masks, x));
    capacity::capacities(n, rates, time, caps);
    Moment {
        time,
        room: board.open(n, caps),
    }
}

// Block b, whose copies have no room, on a disk by displacing others; or a later time, if it is stuck.
fn make_way(
    demand: Demand,
    b: usize,
    masks: &Masks,
    caps: &mut Capacities,
    board: &mut Board,
    by: &mut Steps,
    moment: Moment,
) -> Moment
    requires { (SoFar demand b masks.now caps.old board.old by.old moment) × (b < demand.q) × (Tight b masks.now moment.room) }
    ensures { Turned demand.entry b masks.now moment.time caps.new board.new by.new result }
{
    let Moment { time, room } = moment;
    let task = Task {
        n: demand.n,
        q: demand.q,
        b,
        base: 0,
        bound: 0,
        room,
    };
    match search::displace(task, masks, board, by) {
        Hit::Free(d, _) => Moment {
            time,
            room: board.reopen(demand.n, d, caps, room),
        },
        Hit::Stuck(x) => raise(demand, b, time, x, masks, caps, board),
    }
}

// Block b on a disk at this time; or a later time, if it is stuck.
fn seat(
    demand: Demand,
    b: usize,
    masks: &Masks,
    caps: &mut Capacities,
    board: &mut Board,
    by: &mut Steps,
    moment: Moment,
) -> Moment
    requires { (SoFar demand b masks.now caps.old board.old by.old moment) × (b < demand.q) }
    ensures { Turned demand.entry b masks.now moment.time caps.new board.new by.new result }
{
    let Moment { time, room } = moment;
    if let Some(d) = mask::lowest(mask::both(masks[b], room)) {
        board.shift(b, d, masks);
        return Moment {
            time,
            room: board.reopen(demand.n, d, caps, room),
        };
    }
    make_way(demand, b, masks, caps, board, by, moment)
}

// The least time, with a schedule in that time: block after block is placed, and where one is stuck the time rises to the earliest time
// of a set that is short. That is Newton's method on the dual, the greatest earliest time of any set; 001's Algorithm 4 rises by one end
// at a time.
pub fn least(demand: Demand, masks: &Masks, caps: &mut Capacities, board: &mut Board) -> u32
    requires { Blank demand masks.now caps.old board.old }
    ensures { Least demand.entry masks.now caps.new board.new result }
{
    // Arrays of fixed length: the library crates have no heap.
    let mut by = [0u16; PLACES];
    let mut moment = Moment { time: 0, room: 0 };
    capacity::capacities(demand.n, demand.rates, 0, caps);
    for b in 0..demand.q {
        // No count tells when: until the block has a disk.
        while board.seats[b] as usize == demand.n {
            moment = seat(demand, b, masks, caps, board, &mut by, moment);
        }
    }
    moment.time
}

// As many blocks on disks as there is room for at time t, wherever they were before; the disks reached from those left over.
fn fill_at(demand: Demand, t: u32, masks: &Masks, caps: &mut Capacities, board: &mut Board) -> u64
    requires { Filling demand masks.now caps.old board.old }
    ensures { FilledAt demand.entry masks.now t caps.new board.new result }
{
    let Demand { n, q, rates } = demand;
    capacity::capacities(n, rates, t, caps);
    board.lift(n, q, masks, caps);
    fill::place_all(n, q, masks, caps, board)
}

// The disks of the short set just before time t; afterwards there is a schedule in time t again, perhaps another one.
pub fn short_disks(
    demand: Demand,
    t: u32,
    masks: &Masks,
    caps: &mut Capacities,
    board: &mut Board,
) -> u64
    requires { (Priced demand.n demand.rates) × (Copies demand.n demand.q masks.now) × (Timed demand masks.now t caps.old board.old) }
    ensures { Restored demand.entry masks.now t caps.new board.new result }
{
    let x = fill_at(demand, t.saturating_sub(1), masks, caps, board);
    fill_at(demand, t, masks, caps, board);
    x
}
