// One u64 is a set of disks: bit d stands for disk d. A number at DISKS or above is no disk.
#![tactic(auto)]

ghost use Rattle.std.specs.Prelude.{◌≡◌, not, ◌&&◌, ◌||◌, ℕ, ◌<◌, eqb, ltb};
ghost use Rattle.std.specs.Iterator.{YieldsFirst, item_count};
ghost use Rattle.basics.specs.Limits.{disks_most};
ghost use Rattle.mask.specs.Has.{has};
ghost use Rattle.mask.specs.Member.{Below};
ghost use Rattle.mask.specs.Lowest.{Lowest};
ghost use Rattle.mask.specs.Count.{members};
ghost use Rattle.mask.specs.Disks.{disks_of};
ghost use Rattle.mask.specs.Rising.{disks_left};

use basics::DISKS;

// The disks that are in a and in b.
pub fn both(a: u64, b: u64) -> u64
    ensures { (e : ℕ) → has result e ≡ (has a e && has b e) }
{
    a & b
}

// The disks that are in a or in b.
pub fn either(a: u64, b: u64) -> u64
    ensures { (e : ℕ) → has result e ≡ (has a e || has b e) }
{
    a | b
}

// The disks of a that are not in b.
pub fn without(a: u64, b: u64) -> u64
    ensures { (e : ℕ) → has result e ≡ (has a e && not (has b e)) }
{
    a & !b
}

// The disks 0 to n - 1; all of them where n is no disk.
pub fn below(n: usize) -> u64
    ensures { Below n result }
{
    if n < DISKS { (1 << n) - 1 } else { !0 }
}

// The lowest disk of m, if it holds one.
pub fn lowest(m: u64) -> Option<usize>
    ensures { Lowest m result }
{
    if m == 0 {
        None
    } else {
        Some(u64::trailing_zeros(m) as usize)
    }
}

// How many disks are in m.
pub fn count(m: u64) -> u32
    ensures { result ≡ members disks_most m }
{
    u64::count_ones(m)
}

// The five that follow are for a d that is known to be a disk: they test nothing.

// Whether disk d is in m.
pub fn held(m: u64, d: usize) -> bool
    requires { d < disks_most }
    ensures { result ≡ has m d }
{
    (m >> d) & 1 != 0
}

// m with disk d put in.
pub fn put(m: u64, d: usize) -> u64
    requires { d < disks_most }
    ensures { (e : ℕ) → has result e ≡ (eqb e d || has m e) }
{
    m | (1 << d)
}

// m with disk d taken out.
pub fn take(m: u64, d: usize) -> u64
    requires { d < disks_most }
    ensures { (e : ℕ) → has result e ≡ (not (eqb e d) && has m e) }
{
    m & !(1 << d)
}

// Disk d alone.
pub fn only(d: usize) -> u64
    requires { d < disks_most }
    ensures { (e : ℕ) → has result e ≡ eqb e d }
{
    1 << d
}

// The disks before d.
pub fn before(d: usize) -> u64
    requires { d < disks_most }
    ensures { (e : ℕ) → has result e ≡ ltb e d }
{
    (1 << d) - 1
}

// The disks of a mask that are still to come, the lowest first.
#[derive(Clone, Copy)]
pub struct Rising {
    rest: u64,
}

impl Iterator for Rising {
    type Item = usize;

    ghost next_gives = { YieldsFirst disks_left };

    ghost remaining = { item_count disks_left };

    fn next(&mut self) -> Option<usize> {
        let d = lowest(self.rest)?;
        self.rest = take(self.rest, d);
        Some(d)
    }
}

// The disks of m one by one, rising.
pub fn disks(m: u64) -> Rising
    ensures { disks_left result ≡ disks_of m }
{
    Rising { rest: m }
}
