// The plan sheet: read into two lent lists, written from what a planner found.
#![tactic(auto)]

ghost use Rattle.std.specs.Prelude.{◌≡◌, ℕ, ◌-◌, ◌≤◌, length};
ghost use Rattle.basics.specs.Limits.{blocks_most};
ghost use Rattle.number.specs.Encode.{encode};
ghost use Rattle.field.specs.Sheet.{got, times};
ghost use Rattle.field.specs.Field.{ascending, whole};
ghost use Rattle.field.specs.Put.{spell_all};
ghost use Rattle.field.specs.Send.{Sent, told_written};
ghost use Rattle.plan.specs.Plan.{Plan, plan_of, disk, if_any, lists_of, plan_sheet};
ghost use Rattle.plan.specs.Receive.{Received};
ghost use Rattle.plan.specs.Draft.{plan_draft};
ghost use Rattle.plan.specs.Parts.{ended, ReadInto, Framed, Checked, numbers_of};

use basics::{BLOCKS, DISKS, TIME_MOST};
use field::{Fault, Pen, Refusal};
use number::Numeral;

// The kind of a plan sheet, as a number: `field` knows no sheet's kinds.
const KIND: u32 = 3;

// What an accepted plan sheet says, beside its two lists.
#[derive(Clone, Copy)]
pub struct Head {
    // The number of blocks, Q.
    pub blocks: usize,
    // The plan's time, R.
    pub time: u32,
    // The size of the short set, m.
    pub size: usize,
}

// A plan sheet that was read to its end: its counts and time, and where its lists begin.
#[derive(Clone, Copy)]
struct Frame {
    blocks: u32,
    time: u32,
    size: u32,
    disks: usize,
    short: usize,
}

// The number for at least one block; for none it is 0: the definition's `if_any`.
fn if_any(q: u32, n: u32) -> u32
    ensures { result ≡ if_any q n }
{
    if q == 0 { 0 } else { n }
}

// The disks of q blocks, put at the start of a list: the place after them. q beside the list, which may be longer.
fn read_disks(s: &[u8], at: usize, q: u32, out: &mut [u8]) -> Result<usize, Fault>
    requires { q ≤ length out.old }
    ensures { ReadInto (times q disk s.now at) out.old result out.new }
{
    let mut p = at;
    for x in &mut out[..q as usize] {
        let (disk, next) = field::inside(s, p, 0, DISKS as u32 - 1, Refusal::BadIndex)?;
        *x = disk as u8;
        p = next;
    }
    Ok(p)
}

// The m rising numbers of blocks out of q, put at the start of a list: the place after them.
// Not one function with `read_disks`: what a block may be follows from the one before it, and a disk from none.
// `q ≤ blocks_most`, here and below: a premise and no type: one number's limit, which its reader has just promised; a type of one number
// would be opened at each use.
fn read_short(s: &[u8], at: usize, m: u32, q: u32, out: &mut [u16]) -> Result<usize, Fault>
    requires { (m ≤ length out.old) × (q ≤ blocks_most) }
    ensures { ReadInto (ascending m 0 (q - 1) s.now at) out.old result out.new }
{
    let last = q.saturating_sub(1);
    let mut p = at;
    let mut floor: u32 = 0;
    for x in &mut out[..m as usize] {
        let (block, next) = field::rising(s, p, floor, last)?;
        *x = block as u16;
        p = next;
        floor = block + 1;
    }
    Ok(p)
}

// The place after the disks of q blocks, which are read into an array of its own: a refused sheet leaves the lent lists as they were.
fn past_disks(s: &[u8], at: usize, q: u32) -> Result<usize, Fault>
    requires { q ≤ blocks_most }
    ensures { told_written result ≡ ended (times q disk s.now at) }
{
    let mut scratch = [0u8; BLOCKS];
    read_disks(s, at, q, &mut scratch)
}

// The place after the m blocks of the short set. Not one function with `past_disks`: what a number may be differs (`read_disks`,
// `read_short`).
fn past_short(s: &[u8], at: usize, m: u32, q: u32) -> Result<usize, Fault>
    requires { (m ≤ q) × (q ≤ blocks_most) }
    ensures { told_written result ≡ ended (ascending m 0 (q - 1) s.now at) }
{
    let mut scratch = [0u16; BLOCKS];
    read_short(s, at, m, q, &mut scratch)
}

// What follows the time: the disks, the short set with its size, and the end of the sheet.
fn lists(s: &[u8], at: usize, q: u32, time: u32) -> Result<Frame, Fault>
    requires { q ≤ blocks_most }
    ensures { Checked s.now (whole (lists_of q time) s.now at) result }
{
    let p = past_disks(s, at, q)?;
    let (size, short) = field::inside(s, p, if_any(q, 1), q, Refusal::OutOfRange)?;
    let end = past_short(s, short, size, q)?;
    field::end(s, end)?;
    Ok(Frame {
        blocks: q,
        time,
        size,
        disks: at,
        short,
    })
}

// The whole sheet.
// Unit and tenancy one by one: two numbers of the sheet's opening, each looked at once; a struct would be made and opened at each call.
fn check(s: &[u8], unit: u32, tenancy: u32) -> Result<Frame, Fault>
    ensures { Checked s.now (plan_sheet unit tenancy s.now 0) result }
{
    let (_, at) = field::opening(s, &[KIND], unit, tenancy)?;
    let (q, p) = field::inside(s, at, 0, BLOCKS as u32, Refusal::OutOfRange)?;
    let (time, next) = field::inside(s, p, if_any(q, 1), if_any(q, TIME_MOST), Refusal::BadAmount)?;
    lists(s, next, q, time)
}

// Fills the lent lists from a sheet that was read to its end, or refuses with 11.
fn fill(s: &[u8], f: Frame, disks: &mut [u8], short: &mut [u16]) -> Result<Head, Fault>
    requires { f.blocks ≤ blocks_most }
    ensures { (p : Plan) (e : ℕ) → Framed s.now p f
        → Received (got p e) e disks.old short.old result disks.new short.new }
{
    let q = f.blocks as usize;
    let m = f.size as usize;
    if disks.len() < q {
        return Err(Refusal::NoRoom.at(q));
    }
    if short.len() < m {
        return Err(Refusal::NoRoom.at(m));
    }
    // Both lists were read once already, so neither is refused here.
    read_disks(s, f.disks, f.blocks, disks)?;
    read_short(s, f.short, f.size, f.blocks, short)?;
    Ok(Head {
        blocks: q,
        time: f.time,
        size: m,
    })
}

// Reads a plan sheet for a unit and a tenancy. The sheet is read to its end before a lent list is touched.
pub fn read(
    s: &[u8],
    unit: u32,
    tenancy: u32,
    disks: &mut [u8],
    short: &mut [u16],
) -> Result<Head, Fault>
    ensures { Received (plan_sheet unit tenancy s.now 0) (length s.now) disks.old
        short.old result disks.new short.new }
{
    let frame = check(s, unit, tenancy)?;
    fill(s, frame, disks, short)
}

// The bytes of a list's numbers.
fn list_width<T: Numeral>(xs: &[T]) -> usize
    requires { length xs.now ≤ blocks_most }
    ensures { result ≡ length (spell_all (λ x. encode (T.value x)) xs.now) }
{
    let mut n = 0;
    for x in xs {
        n += number::width((*x).into());
    }
    n
}

// The length of a sheet of these numbers: the fields before the disks, the disks, and the short set behind its size.
fn sheet_width(heading: &[u32], disks: &[u8], short: &[u16]) -> usize
    requires { (length heading.now ≤ blocks_most) × (length disks.now ≤ blocks_most) × (length short.now ≤ blocks_most) }
    ensures { result ≡ length (spell_all encode (numbers_of heading.now disks.now short.now)) }
{
    list_width(heading) + list_width(disks) + number::width(short.len() as u32) + list_width(short)
}

// Writes the plan sheet of what is given. The length is found first, so that a refusal has changed nothing.
pub fn write(
    unit: u32,
    tenancy: u32,
    time: u32,
    disks: &[u8],
    short: &[u16],
    out: &mut [u8],
) -> Result<usize, Fault>
    ensures { Sent (plan_draft unit tenancy (plan_of time disks.now short.now))
        out.old result out.new }
{
    if BLOCKS < disks.len() || BLOCKS < short.len() {
        return Err(Refusal::OutOfRange.at(0));
    }
    let heading = [KIND, unit, tenancy, disks.len() as u32, time];
    let length = sheet_width(&heading, disks, short);
    if out.len() < length {
        return Err(Refusal::NoRoom.at(length));
    }
    let mut pen = Pen { out, at: 0 };
    pen.list(&heading);
    pen.list(disks);
    pen.put(short.len() as u32);
    pen.list(short);
    Ok(pen.at)
}
