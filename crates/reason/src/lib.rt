// Why a plan reads a block from a disk, or doesn't. What each reason says is in specs/, that exactly one is true in proofs/.
#![tactic(auto)]

ghost use Rattle.std.specs.Prelude.{ℕ, ◌≤◌, ◌<◌, ◌≡◌, length, get_or};
ghost use Rattle.basics.specs.Limits.{disks_most, blocks_most};
ghost use Rattle.engine.specs.Spelled.{spelled, Spellable};
ghost use Rattle.reason.specs.Reason.{Reasons, numbered, timed};
ghost use Rattle.reason.specs.Parts.{Forced, Kept};

use basics::{BLOCKS, Masks};

// The time with Later is the least one if the block were forced to the disk.
#[derive(Clone, Copy, Debug, PartialEq, Eq)]
pub enum Reason {
    NoCopy,
    Later(u32),
    NotKept,
    Lower,
    Chosen,
}

// The number of a reason, 1 to 5.
impl From<Reason> for u32 {
    ghost from_gives = { λ r n. n ≡ numbered r };

    fn from(r: Reason) -> u32 {
        match r {
            Reason::NoCopy => 1,
            Reason::Later(_) => 2,
            Reason::NotKept => 3,
            Reason::Lower => 4,
            Reason::Chosen => 5,
        }
    }
}

impl Reason {
    // The time of a reason: the least if the block were read there, 0 but for the second.
    // 0, and no Option: the shelf's line has two numbers, `timed`.
    pub fn time(self) -> u32
        ensures { result ≡ timed self }
    {
        match self {
            Reason::Later(t) => t,
            _ => 0,
        }
    }
}

// The copies, those of one block cut to one disk.
fn force(copies: &[u64], block: usize, disk: usize) -> Masks
    requires { (length copies.now ≤ blocks_most) × (block < length copies.now) × (disk < disks_most) }
    ensures { Forced copies.now block disk result }
{
    let mut masks = [0u64; BLOCKS];
    engine::load(copies, &mut masks);
    masks[block] = mask::only(disk);
    masks
}

// Those of the earlier blocks cut to a schedule's disks.
fn keep(block: usize, disks: &[u8], masks: &mut Masks)
    requires { (block ≤ length disks.now) × (block ≤ blocks_most) × (length masks.old ≡ blocks_most)
        × ((i : ℕ) → i < block → get_or disks.now i 0 < disks_most) }
    ensures { Kept block disks.now masks.old masks.new }
{
    // No zip over `iter_mut`: tried, and `returns` did not close: afterwards a proof knows the entries' number alone.
    for b in 0..block {
        masks[b] = mask::only(disks[b] as usize);
    }
}

// The one reason that is true of a block and a disk, of the case that the slices spell.
// Costs and starts one by one, as document 01 lends them.
pub fn explain(copies: &[u64], costs: &[u32], starts: &[u32], block: usize, disk: usize) -> Reason
    requires { Spellable copies.now costs.now starts.now × (block < length copies.now) × (disk < length costs.now) }
    ensures { Reasons (spelled copies.now costs.now starts.now) block disk result }
{
    if !mask::held(copies[block], disk) {
        return Reason::NoCopy;
    }
    // Arrays of fixed length: the library crates have no heap.
    let mut disks = [0u8; BLOCKS];
    let mut short = [0u16; BLOCKS];
    let found = engine::plan(copies, costs, starts, &mut disks, &mut short);
    if disks[block] as usize == disk {
        return Reason::Chosen;
    }
    let q = copies.len();
    let mut masks = force(copies, block, disk);
    let later = engine::least(&masks[..q], costs, starts);
    if found.time < later {
        return Reason::Later(later);
    }
    keep(block, &disks, &mut masks);
    let kept = engine::least(&masks[..q], costs, starts);
    if found.time < kept {
        return Reason::NotKept;
    }
    Reason::Lower
}
