// Blocks in rings. A node is a block, or BLOCKS + d, where the ring of place d begins and ends.
#![tactic(auto)]

ghost use Rattle.std.specs.Prelude.{◌<◌, get_or};
ghost use Rattle.basics.specs.Limits.{nodes_most};
ghost use Rattle.ring.specs.Nodes.{Unlinked, Linked};

use basics::Links;

// next and prev lead from node to node.
#[derive(Drop)]
pub struct Nodes {
    pub next: Links,
    pub prev: Links,
}

impl Nodes {
    // Block b out of its ring.
    pub fn unlink(&mut self, b: usize)
        requires { (b < nodes_most) × (get_or self.old.next b 0 < nodes_most) × (get_or self.old.prev b 0 < nodes_most) }
        ensures { Unlinked b self.old self.new }
    {
        let a = self.prev[b];
        let c = self.next[b];
        self.next[a as usize] = c;
        self.prev[c as usize] = a;
    }

    // Block b, which is in no ring, into the ring that begins at c, as its last.
    pub fn link(&mut self, b: usize, c: usize)
        requires { (b < nodes_most) × (c < nodes_most) × (get_or self.old.prev c 0 < nodes_most) }
        ensures { Linked b c self.old self.new }
    {
        let a = self.prev[c];
        self.next[b] = c as u16;
        self.prev[b] = a;
        self.next[a as usize] = b as u16;
        self.prev[c] = b as u16;
    }
}
