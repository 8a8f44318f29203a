// Places of blocks on disks, in lists and in rings.
#![tactic(auto)]

ghost use Rattle.std.specs.Prelude.{◌≡◌, ◌+◌, ◌≤◌};
ghost use Rattle.basics.specs.Limits.{disks_most};
ghost use Rattle.places.specs.Boards.{Zeros, Seated, Shifting, Shifted, Lifted, Empty, Cleared, Begun};
ghost use Rattle.places.specs.Room.{Open, OpenBut};

use basics::{BLOCKS, Capacities, Counts, Masks, NODES, PLACES, Reaches, Seats};
use ring::Nodes;

// Empty rings for the places 0 to n.
// n ≤ disks_most, here and below: a premise and no type: one number's limit; a type of one number would be opened at each use.
fn rings(n: usize, nodes: &mut Nodes)
    requires { (n ≤ disks_most) × (Begun 0 nodes.old) }
    ensures { Begun (n + 1) nodes.new }
{
    for d in 0..=n {
        nodes.next[BLOCKS + d] = (BLOCKS + d) as u16;
        nodes.prev[BLOCKS + d] = (BLOCKS + d) as u16;
    }
}

// Where the blocks are: seats[b] is the disk of block b, or n for none; counts[d] counts the blocks at d, n included.
// n is a place as any other, with its count and its ring: so none is n, and no Option.
// The movable blocks at d stand in a ring of nodes, which begins and ends at BLOCKS + d.
// out[d] has the disks of all copies of the movable blocks at d, and perhaps others.
#[derive(Drop)]
pub struct Board {
    pub seats: Seats,
    pub counts: Counts,
    pub nodes: Nodes,
    pub out: Reaches,
}

impl Board {
    // Every entry is 0.
    pub fn new() -> Board
        ensures { Zeros result }
    {
        Board {
            seats: [0; BLOCKS],
            counts: [0; PLACES],
            nodes: Nodes {
                next: [0; NODES],
                prev: [0; NODES],
            },
            out: [0; PLACES],
        }
    }

    // Block b goes to place d; the answer is where it was.
    pub fn shift(&mut self, b: usize, d: usize, masks: &Masks) -> usize
        requires { Shifting b d self.old }
        ensures { Shifted b d masks.now self.old self.new result }
    {
        let old = self.seats[b] as usize;
        self.nodes.unlink(b);
        self.nodes.link(b, BLOCKS + d);
        self.seats[b] = d as u8;
        self.counts[d] += 1;
        self.counts[old] -= 1;
        self.out[d] = mask::either(self.out[d], masks[b]);
        old
    }

    // The disks that have room.
    pub fn open(&self, n: usize, caps: &Capacities) -> u64
        requires { n ≤ disks_most }
        ensures { Open n caps.now self.now.counts result }
    {
        let mut m: u64 = 0;
        for d in 0..n {
            if self.counts[d] < caps[d] {
                m = mask::put(m, d);
            }
        }
        m
    }

    // The disks that have room, now that disk d has one block more.
    pub fn reopen(&self, n: usize, d: usize, caps: &Capacities, room: u64) -> u64
        requires { (n ≤ disks_most) × (OpenBut n d caps.now self.now.counts room) }
        ensures { Open n caps.now self.now.counts result }
    {
        if caps[d] <= self.counts[d] {
            mask::take(room, d)
        } else {
            room
        }
    }

    // Blocks off the disks that hold more than their capacity, until none does.
    // q is for the contract alone: a ghost value can be picked only from a call's own arguments, and a caller's q is none of them.
    pub fn lift(&mut self, n: usize, q: usize, masks: &Masks, caps: &Capacities)
        requires { Seated n q 0 masks.now self.old }
        ensures { Lifted n q masks.now caps.now self.new }
    {
        for d in 0..n {
            // No count tells when: until the disk reads no more than it can.
            while caps[d] < self.counts[d] {
                let b = self.nodes.prev[BLOCKS + d] as usize;
                self.shift(b, n, masks);
            }
        }
    }

    // No block on any disk.
    pub fn clear_all(&mut self, n: usize, q: usize)
        requires { Empty n q self.old }
        ensures { Cleared n q self.new × (self.new.out ≡ self.old.out) }
    {
        rings(n, &mut self.nodes);
        for b in 0..q {
            self.seats[b] = n as u8;
            self.nodes.link(b, BLOCKS + n);
        }
        self.counts[n] = q as u32;
    }
}
