// The search over disks and displaced blocks that finds room for one more block.
// by has the blocks of a search, step by step.
#![tactic(auto)]

ghost use Rattle.std.specs.Prelude.{◌≡◌, true, false, ℕ, length};
ghost use Rattle.basics.specs.Limits.{places_most};
ghost use Rattle.mask.specs.Has.{has};
ghost use Rattle.places.specs.Places.{holds};
ghost use Rattle.places.specs.Seats.{Far};
ghost use Rattle.search.specs.Boards.{Seeking, Improved, Visiting, Visited, Sought, Drawing, Drawn};

use basics::{BLOCKS, Counts, Links, Masks, Reaches, Seats, Steps};
use places::Board;
use ring::Nodes;

// What the search yields: a disk that has room with the number of steps to it, or the reached disks, all full.
// No Result: each of the two is an answer that a caller goes on with, none is a refusal for `?` to hand on.
#[derive(Clone, Copy, Debug, PartialEq, Eq)]
pub enum Hit {
    Free(usize, usize),
    Stuck(u64),
}

// What a search is for: block b, of q blocks on n disks. The blocks before bound are bound to their disk; the disks of base count as
// reached, with all their blocks; those of room have room.
// q and bound are read by contracts alone: a ghost value is picked from a call's own arguments, and no other argument tells them.
#[derive(Clone, Copy)]
pub struct Task {
    pub n: usize,
    pub q: usize,
    pub b: usize,
    pub base: u64,
    pub bound: usize,
    pub room: u64,
}

// How far a search has come: the reached disks, the steps noted, and a disk with room, if one is reached.
#[derive(Clone, Copy)]
struct Reach {
    disks: u64,
    steps: usize,
    free: Option<usize>,
}

// The blocks of disk d bring the disks of their other copies, until one has room or no disk is left to bring. A step takes all new
// disks of a block. After a whole round out[d] has no disk too many.
fn visit(
    task: Task,
    d: usize,
    masks: &Masks,
    seats: &Seats,
    next: &Links,
    out: &mut Reaches,
    by: &mut Steps,
    reach: Reach,
) -> Reach
    requires { Visiting task d masks.now seats.now next.now out.old by.old reach }
    ensures { Visited task d masks.now seats.now reach by.new out.new result }
{
    let mut disks = reach.disks;
    let mut steps = reach.steps;
    let mut seen: u64 = 0;
    let most = out[d];
    let mut y = next[BLOCKS + d] as usize;
    // Along the links of a ring: no index is counted.
    while y < BLOCKS {
        let copies = masks[y];
        seen = mask::either(seen, copies);
        let fresh = mask::without(copies, disks);
        if fresh != 0 {
            by[steps] = y as u16;
            steps += 1;
            if let Some(f) = mask::lowest(mask::both(fresh, task.room)) {
                return Reach {
                    disks,
                    steps,
                    free: Some(f),
                };
            }
            disks = mask::either(disks, copies);
            if mask::without(most, disks) == 0 {
                return Reach {
                    disks,
                    steps,
                    free: None,
                };
            }
        }
        y = next[y] as usize;
    }
    out[d] = seen;
    Reach {
        disks,
        steps,
        free: None,
    }
}

// From block b, over the disks of its copies and the blocks there, to a disk with room. Of a board, out alone changes: so its parts are
// lent one by one, here and in `visit`, and what does not change needs no clause.
fn seek(
    task: Task,
    masks: &Masks,
    seats: &Seats,
    counts: &Counts,
    nodes: &Nodes,
    out: &mut Reaches,
    by: &mut Steps,
) -> Hit
    requires { Seeking task masks.now
        (record { seats = seats.now; counts = counts.now; nodes = nodes.now; out = out.old }) by.old
        × ((e : ℕ) → holds masks.now task.b e ≡ true → has task.room e ≡ false) }
    ensures { Sought task masks.now seats.now by.new result
        × (Far task.n task.q task.bound masks.now seats.now out.new) × (length by.new ≡ places_most) }
{
    by[0] = task.b as u16;
    let mut done = task.base;
    let mut reach = Reach {
        disks: mask::either(task.base, masks[task.b]),
        steps: 1,
        free: None,
    };
    // The labelled loop is document 01's form of the search; it counts nothing.
    let hit = 'search: loop {
        let Some(d) = mask::lowest(mask::without(reach.disks, done)) else {
            break 'search Hit::Stuck(reach.disks);
        };
        done = mask::put(done, d);
        if mask::without(out[d], reach.disks) != 0 {
            reach = visit(task, d, masks, seats, &nodes.next, out, by, reach);
        }
        if let Some(f) = reach.free {
            break 'search Hit::Free(f, reach.steps);
        }
    };
    hit
}

// Back along the steps from a disk with room: the next block from elsewhere that has a copy there goes there, and leaves room where
// it was.
fn pull(task: Task, start: usize, steps: usize, masks: &Masks, by: &Steps, board: &mut Board)
    requires { Drawing task start steps masks.now by.now board.old }
    ensures { Drawn task start masks.now board.old board.new }
{
    let mut d = start;
    let mut k = steps;
    // No `for` over the steps: the way ends where d is n, at a step that no count tells, and a `for` would test that all the same.
    while d != task.n {
        k -= 1;
        let y = by[k] as usize;
        if board.seats[y] as usize != d {
            if mask::held(masks[y], d) {
                d = board.shift(y, d, masks);
            }
        }
    }
}

// Block b, which is on no disk and whose copies have no room, on a disk all the same; or the reached disks, where there is no way.
pub fn displace(task: Task, masks: &Masks, board: &mut Board, by: &mut Steps) -> Hit
    requires { Seeking task masks.now board.old by.old
        × ((e : ℕ) → holds masks.now task.b e ≡ true → has task.room e ≡ false) }
    ensures { Improved task masks.now board.old board.new by.new result }
{
    let hit = seek(
        task,
        masks,
        &board.seats,
        &board.counts,
        &board.nodes,
        &mut board.out,
        by,
    );
    if let Hit::Free(d, steps) = hit {
        pull(task, d, steps, masks, by, board);
    }
    hit
}

// Block b, which is on no disk, on one; or the reached disks, where there is no way.
pub fn improve(task: Task, masks: &Masks, board: &mut Board, by: &mut Steps) -> Hit
    requires { Seeking task masks.now board.old by.old }
    ensures { Improved task masks.now board.old board.new by.new result }
{
    if let Some(d) = mask::lowest(mask::both(masks[task.b], task.room)) {
        board.shift(task.b, d, masks);
        return Hit::Free(d, 1);
    }
    displace(task, masks, board, by)
}
