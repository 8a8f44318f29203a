// Capacities of disks at a time, and the first time at which some disks have room for more blocks.
#![tactic(auto)]

ghost use Rattle.std.specs.Prelude.{◌≡◌, ◌<◌, ◌≤◌, length};
ghost use Rattle.basics.specs.Limits.{disks_most, blocks_most};
ghost use Rattle.model.specs.Capacity.{capacity};
ghost use Rattle.capacity.specs.Capacities.{Small};
ghost use Rattle.capacity.specs.Parts.{Alone};
ghost use Rattle.capacity.specs.Rated.{Priced, Capacities, room_of, Awaited, FirstRoom, Enough};

use basics::{Capacities, TIME_MOST};

// What a block costs each disk, and when each starts.
#[derive(Clone, Copy)]
pub struct Rates<'a> {
    pub costs: &'a [u32],
    pub starts: &'a [u32],
}

// How many blocks a disk has read by time t (001, Observation 3): none before its start.
fn able(start: u32, cost: u32, t: u32) -> u32
    requires { 0 < cost }
    ensures { result ≡ capacity start cost t }
{
    t.saturating_sub(start) / cost
}

// The capacities of all disks at time t.
pub fn capacities(n: usize, rates: Rates, t: u32, caps: &mut Capacities)
    requires { (Priced n rates) × (length caps.old ≡ disks_most) }
    ensures { Capacities n rates.entry t caps.new }
{
    // No zip over `iter_mut`: tried, and `returns` did not close: afterwards a proof knows the entries' number alone.
    for d in 0..n {
        caps[d] = able(rates.starts[d], rates.costs[d], t);
    }
}

// The capacities of the disks of x at time t, summed.
fn room_at(n: usize, rates: Rates, t: u32, x: u64) -> u64
    requires { (Priced n rates) × (Small n x) }
    ensures { result ≡ room_of n rates.entry x t }
{
    let mut total: u64 = 0;
    for d in mask::disks(x) {
        total += able(rates.starts[d], rates.costs[d], t) as u64;
    }
    total
}

// A time at which a disk has read so many blocks more than at t.
fn alone(start: u32, cost: u32, t: u32, more: u64) -> u64
    requires { (0 < cost) × (more ≤ blocks_most) }
    ensures { Alone start cost t more result }
{
    t.max(start) as u64 + more * cost as u64
}

// A time at which the disks of x have room for so many blocks more than at t: the first of those at which one of them alone has.
fn enough(n: usize, rates: Rates, t: u32, x: u64, more: u64) -> u32
    requires { Awaited n rates t x more }
    ensures { Enough n rates.entry t x more result }
{
    let mut high = TIME_MOST as u64;
    for d in mask::disks(x) {
        high = high.min(alone(rates.starts[d], rates.costs[d], t, more));
    }
    high as u32
}

// The first time at which the disks of x have room for so many blocks more than at t: halving between two times (001, Theorem 5.5).
pub fn earliest(n: usize, rates: Rates, t: u32, x: u64, more: u64) -> u32
    requires { Awaited n rates t x more }
    ensures { FirstRoom n rates.entry t x more result }
{
    let size = room_at(n, rates, t, x) + more;
    let mut low = t;
    let mut high = enough(n, rates, t, x, more);
    // Halving: no index is counted.
    while high - low > 1 {
        let mid = low + (high - low) / 2;
        if room_at(n, rates, mid, x) < size {
            low = mid;
        } else {
            high = mid;
        }
    }
    high
}
