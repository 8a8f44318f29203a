// A case in lent slices to its plan: the least time, the first schedule, the short set.
#![tactic(auto)]

ghost use Rattle.std.specs.Prelude.{◌≡◌, ℕ, ◌<◌, ◌≤◌, length, get_or};
ghost use Rattle.basics.specs.Limits.{blocks_most};
ghost use Rattle.timing.specs.Boards.{Least};
ghost use Rattle.order.specs.Boards.{Scheduled};
ghost use Rattle.engine.specs.Spelled.{Spellable, Loaded, Ready};
ghost use Rattle.engine.specs.Planned.{LeastOf, Planned};
ghost use Rattle.engine.specs.Parts.{Stored, Listed, Sorted};
ghost use Rattle.engine.specs.Boards.{Fresh, Naming, Named, Solving, Solved};

use basics::{BLOCKS, Capacities, DISKS, Masks, Seats};
use capacity::Rates;
use places::Board;
use timing::Demand;

// The least time R, and how many blocks the short set has.
#[derive(Clone, Copy, Debug, PartialEq, Eq)]
pub struct Found {
    pub time: u32,
    pub size: usize,
}

// The copies of all blocks, in an array of zeros.
pub fn load(copies: &[u64], masks: &mut Masks)
    requires { (length copies.now ≤ blocks_most) × (length masks.old ≡ blocks_most) × ((b : ℕ) → get_or masks.old b 0 ≡ 0) }
    ensures { Loaded copies.now masks.new }
{
    masks[..copies.len()].copy_from_slice(copies);
}

// The places of all blocks, in the lent buffer.
// q beside an array: the array's length is fixed, q counts.
fn store(q: usize, seats: &Seats, disks: &mut [u8])
    requires { (q ≤ blocks_most) × (q ≤ length disks.old) }
    ensures { Stored q seats.now disks.old disks.new }
{
    disks[..q].copy_from_slice(&seats[..q]);
}

// The blocks whose copies are all in x, rising, in the lent buffer.
// q beside an array: the array's length is fixed, q counts. size counts what was put: no index of the loop.
fn list_among(q: usize, masks: &Masks, x: u64, short: &mut [u16]) -> usize
    requires { (q ≤ blocks_most) × (q ≤ length short.old) }
    ensures { Listed q masks.now x short.old short.new result }
{
    let mut size: usize = 0;
    for b in 0..q {
        if timing::all_in(masks[b], x) {
            short[size] = b as u16;
            size += 1;
        }
    }
    size
}

// The least time, with a schedule in that time.
fn schedule(demand: Demand, masks: &Masks, caps: &mut Capacities, board: &mut Board) -> u32
    requires { Fresh demand masks.now caps.old board.old }
    ensures { Least demand.entry masks.now caps.new board.new result }
{
    board.clear_all(demand.n, demand.q);
    timing::least(demand, masks, caps, board)
}

// The short set just before time t, in the lent buffer, from a schedule in time t; another one may be left.
fn name_short(
    demand: Demand,
    t: u32,
    masks: &Masks,
    caps: &mut Capacities,
    board: &mut Board,
    short: &mut [u16],
) -> usize
    requires { Naming demand masks.now t caps.old board.old short.old }
    ensures { Named demand.entry masks.now t caps.new board.new short.old short.new result }
{
    let x = timing::short_disks(demand, t, masks, caps, board);
    list_among(demand.q, masks, x, short)
}

// The first schedule, in the lent buffer; masks and schedule are used up.
fn sort_out(
    n: usize,
    q: usize,
    masks: &mut Masks,
    caps: &Capacities,
    board: &mut Board,
    disks: &mut [u8],
)
    requires { (Scheduled n q masks.old caps.now board.old) × (q ≤ length disks.old) }
    ensures { Sorted n q masks.old caps.now disks.old disks.new }
{
    order::first(n, q, masks, caps, board);
    store(q, &board.seats, disks);
}

// The plan of the case that masks and demand spell; all other arrays are used up.
fn solve(
    demand: Demand,
    masks: &mut Masks,
    caps: &mut Capacities,
    board: &mut Board,
    disks: &mut [u8],
    short: &mut [u16],
) -> Found
    requires { Solving demand masks.old caps.old board.old disks.old short.old }
    ensures { Solved demand.entry masks.old disks.old short.old disks.new short.new result }
{
    let time = schedule(demand, masks, caps, board);
    let size = name_short(demand, time, masks, caps, board, short);
    sort_out(demand.n, demand.q, masks, caps, board, disks);
    Found { time, size }
}

// The least time of the case that the slices spell: copies, costs and starts lent one by one, as document 01 has them.
pub fn least(copies: &[u64], costs: &[u32], starts: &[u32]) -> u32
    requires { Spellable copies.now costs.now starts.now }
    ensures { LeastOf copies.now costs.now starts.now result }
{
    let demand = Demand {
        n: costs.len(),
        q: copies.len(),
        rates: Rates { costs, starts },
    };
    let mut masks = [0u64; BLOCKS];
    load(copies, &mut masks);
    schedule(demand, &masks, &mut [0u32; DISKS], &mut Board::new())
}

// Arrays of fixed length: the library crates have no heap.
// The plan of the case that the slices spell: disks[b] is the disk of block b, short[..size] the short set, time the least time.
// Costs and starts one by one, as document 01 lends them.
pub fn plan(
    copies: &[u64],
    costs: &[u32],
    starts: &[u32],
    disks: &mut [u8],
    short: &mut [u16],
) -> Found
    requires { Ready copies.now costs.now starts.now disks.old short.old }
    ensures { Planned copies.now costs.now starts.now disks.old short.old
        disks.new short.new result }
{
    let demand = Demand {
        n: costs.len(),
        q: copies.len(),
        rates: Rates { costs, starts },
    };
    let mut masks = [0u64; BLOCKS];
    load(copies, &mut masks);
    solve(
        demand,
        &mut masks,
        &mut [0u32; DISKS],
        &mut Board::new(),
        disks,
        short,
    )
}
