// The read request: its reader and its writer.
#![tactic(auto)]

ghost use Rattle.std.specs.Prelude.{◌≡◌, ℕ, ◌≤◌, ◌<◌, length, get_or};
ghost use Rattle.basics.specs.Limits.{disks_most, blocks_most};
ghost use Rattle.number.specs.Encode.{encode};
ghost use Rattle.field.specs.Field.{rising, ascending, whole};
ghost use Rattle.field.specs.Pen.{Lays};
ghost use Rattle.field.specs.Put.{spell_all};
ghost use Rattle.field.specs.Refusal.{note_of};
ghost use Rattle.field.specs.Send.{Sent, sheet};
ghost use Rattle.field.specs.Sheet.{refused};
ghost use Rattle.field.specs.Told.{told};
ghost use Rattle.mask.specs.Disks.{disks_of};
ghost use Rattle.request.specs.Draft.{block_bytes, heading_bytes, request_bytes, request_draft};
ghost use Rattle.request.specs.Judged.{Judged};
ghost use Rattle.mask.specs.Has.{has};
ghost use Rattle.request.specs.Parts.{masked, Counted, Sized};
ghost use Rattle.request.specs.Request.{last_disk, block, age as age_of, opening as opening_of, heading as heading_of};
ghost use Rattle.request.specs.Request.{body as body_of, request_sheet};
ghost use Rattle.request.specs.Told.{Told};

use basics::{BLOCKS, COPIES, DISKS, Masks};
use field::{Fault, Field, Pen, Refusal};

// The kinds of a request: the age is a field of AGED alone, and 0 in a PLAIN one.
// A kind stays a number: `judge` and `write` take what C hands on, any number, and refuse with 3.
const PLAIN: u32 = 2;

const AGED: u32 = 4;

// What a request says: the block count Q, the kind, the age of the settings in microseconds, and a number of copies for each block, bit d
// standing for disk d: 0 from Q on, as `handed` has them. An array and Q: the library crates have no heap.
#[derive(Clone, Copy)]
pub struct Request {
    pub blocks: usize,
    pub kind: u32,
    pub age: u32,
    pub copies: Masks,
}

// The kind of a request, the age of the settings, and the block count Q.
#[derive(Clone, Copy)]
pub struct Head {
    pub kind: u32,
    pub age: u32,
    pub blocks: u32,
}

// The last disk of a unit, of which no more than DISKS count: a number of copies has a bit for each. The definition's `last_disk`.
fn last(disks: u32) -> u32
    ensures { result ≡ last_disk disks }
{
    disks.min(DISKS as u32).saturating_sub(1)
}

// Why a byte above the last disk is no disk's number.
// `high < disks_most`, here and below: a premise and no type: one number's limit, which `last` has just promised; a type of one number
// would be opened at each use.
fn not_disk(s: &[u8], at: usize, high: u32) -> Fault
    requires { (high < disks_most) × (at < length s.now) × (high < get_or s.now at 0) }
    ensures { (floor : ℕ) → rising floor high s.now at ≡ refused (note_of result) }
{
    match field::number(s, at) {
        Ok(_) => Refusal::BadIndex.at(at),
        Err(e) => e,
    }
}

// So many disk numbers, each above the one before it, as one number. A disk's number is one byte.
fn gather(s: &[u8], at: usize, k: u32, high: u32) -> Result<(u64, usize), Fault>
    requires { high < disks_most }
    ensures { told result ≡ masked 0 (ascending k 0 high s.now at) }
{
    let mut m: u64 = 0;
    let mut floor: u32 = 0;
    let mut p = at;
    for _i in 0..k {
        let Some(byte) = s.get(p) else {
            return Err(Refusal::SheetEnds.at(s.len()));
        };
        let d = u32::from(*byte);
        if high < d {
            return Err(not_disk(s, p, high));
        }
        if d < floor {
            return Err(Refusal::NotRising.at(p));
        }
        m = mask::put(m, d as usize);
        floor = d + 1;
        // No slice of k bytes: the sheet may end before.
        p += 1;
    }
    Ok((m, p))
}

// One block at a place: its copy count, and its disks up to the last one. Some must be in use; else 20 at the last of them, one byte back.
fn one_block(s: &[u8], at: usize, high: u32, out: u64) -> Result<(u64, usize), Fault>
    requires { high < disks_most }
    ensures { told result ≡ block high (has out) s.now at }
{
    let (k, first) = field::between(s, at, 1, COPIES, Refusal::NoCopy, Refusal::OutOfRange)?;
    let (m, next) = gather(s, first, k, high)?;
    if mask::without(m, out) == 0 {
        return Err(Refusal::AllOut.at(next - 1));
    }
    Ok((m, next))
}

// The blocks of a heading from a place on, and the end of the sheet.
fn blocks(s: &[u8], at: usize, heading: Head, high: u32, out: u64) -> Result<Request, Fault>
    requires { (heading.blocks ≤ blocks_most) × (high < disks_most) }
    ensures { Told (length s.now) (whole (body_of heading high (has out)) s.now at) result }
{
    // Arrays of fixed length: the library crates have no heap.
    let mut copies = [0u64; BLOCKS];
    let q = heading.blocks as usize;
    let mut p = at;
    for held in copies[..q].iter_mut() {
        let (m, next) = one_block(s, p, high, out)?;
        *held = m;
        p = next;
    }
    field::end(s, p)?;
    Ok(Request {
        blocks: q,
        kind: heading.kind,
        age: heading.age,
        copies,
    })
}

// The age at a place, a field of an AGED request alone: 0 where there is none, as the definition's `age` gives it.
fn age(s: &[u8], at: usize, kind: u32) -> Field
    ensures { told result ≡ age_of kind s.now at }
{
    if kind == AGED {
        field::number(s, at)
    } else {
        Ok((0, at))
    }
}

// The kind, and the place of the age: 10 for a unit that has no settings yet.
// Unit and tenancy one by one: two numbers of the sheet's opening, each looked at once; a struct would be made and opened at each call.
fn opening(s: &[u8], unit: u32, tenancy: u32, disks: u32) -> Field
    ensures { told result ≡ opening_of unit tenancy disks s.now 0 }
{
    let (kind, at) = field::opening(s, &[PLAIN, AGED], unit, tenancy)?;
    if disks == 0 {
        return Err(Refusal::NoSettings.at(at));
    }
    Ok((kind, at))
}

// The fields before the blocks.
fn heading(s: &[u8], unit: u32, tenancy: u32, disks: u32) -> Result<(Head, usize), Fault>
    ensures { told result ≡ heading_of unit tenancy disks s.now 0 }
{
    let (kind, at) = opening(s, unit, tenancy, disks)?;
    let (since, next) = age(s, at, kind)?;
    let (q, end) = field::inside(s, next, 0, BLOCKS as u32, Refusal::OutOfRange)?;
    Ok((
        Head {
            kind,
            age: since,
            blocks: q,
        },
        end,
    ))
}

// Reads a request for a unit, its tenancy (0: not rented, as in document 01), its N (0: no settings yet) and the disks that are out.
pub fn read(s: &[u8], unit: u32, tenancy: u32, disks: u32, out: u64) -> Result<Request, Fault>
    ensures { Told (length s.now) (request_sheet unit tenancy disks (has out) s.now 0) result }
{
    let (h, at) = heading(s, unit, tenancy, disks)?;
    blocks(s, at, h, last(disks), out)
}

// The bytes of all blocks, or why the first bad block is refused: no copies, more than eight, or a disk at N or above.
fn size(copies: &[u64], disks: usize) -> Result<usize, Fault>
    requires { (disks ≤ disks_most) × (length copies.now ≤ blocks_most) }
    ensures { Sized disks copies.now result }
{
    let known = mask::below(disks);
    let mut total: usize = 0;
    for m in copies {
        if *m == 0 {
            return Err(Refusal::NoCopy.at(0));
        }
        let bits = mask::count(*m);
        if COPIES < bits {
            return Err(Refusal::OutOfRange.at(0));
        }
        if mask::without(*m, known) != 0 {
            return Err(Refusal::BadIndex.at(0));
        }
        total += 1 + bits as usize;
    }
    Ok(total)
}

// Puts the disks of a block, rising.
fn put_disks(m: u64, pen: &mut Pen)
    ensures { Lays (spell_all encode (disks_of m)) pen.old pen.new }
{
    for d in mask::disks(m) {
        pen.put(d as u32);
    }
}

// Puts a block: its copy count and its disks.
fn put_block(m: u64, pen: &mut Pen)
    ensures { Lays (block_bytes m) pen.old pen.new }
{
    pen.put(mask::count(m));
    put_disks(m, pen);
}

// Puts block after block.
fn put_blocks(copies: &[u64], pen: &mut Pen)
    ensures { Lays (spell_all block_bytes copies.now) pen.old pen.new }
{
    for m in copies {
        put_block(*m, pen);
    }
}

// What a heading takes in a sheet, and how it is put there; unit and tenancy stand between kind and age.
impl Head {
    // The bytes of the fields before the blocks. Every kind of request is one byte.
    fn width(self, unit: u32, tenancy: u32) -> usize
        requires { self.kind < 128 }
        ensures { result ≡ length (heading_bytes self.kind unit tenancy self.age self.blocks) }
    {
        1 + number::width(unit)
            + number::width(tenancy)
            + field::width_if(self.kind == AGED, self.age)
            + number::width(self.blocks)
    }

    // Puts the fields before the blocks.
    fn put(self, unit: u32, tenancy: u32, pen: &mut Pen)
        ensures { Lays (heading_bytes self.kind unit tenancy self.age self.blocks) pen.old pen.new }
    {
        pen.opening(self.kind, unit, tenancy);
        pen.put_if(self.kind == AGED, self.age);
        pen.put(self.blocks);
    }
}

// Writes a request whose blocks take n bytes and can all be sent; the length is found first.
fn send(
    heading: Head,
    unit: u32,
    tenancy: u32,
    copies: &[u64],
    n: usize,
    out: &mut [u8],
) -> Result<usize, Fault>
    requires { (heading.kind < 128) × (heading.blocks ≡ length copies.now) × Counted copies.now n }
    ensures { Sent (sheet (request_bytes heading.kind unit tenancy heading.age copies.now)) out.old result out.new }
{
    let length = heading.width(unit, tenancy) + n;
    if out.len() < length {
        return Err(Refusal::NoRoom.at(length));
    }
    let mut pen = Pen { out, at: 0 };
    heading.put(unit, tenancy, &mut pen);
    put_blocks(copies, &mut pen);
    Ok(pen.at)
}

// Whether the fields before the blocks can be sent.
pub fn judge(kind: u32, tenancy: u32, age: u32, disks: u32, q: usize) -> Result<(), Fault>
    ensures { Judged kind tenancy age disks q result }
{
    if kind != PLAIN && kind != AGED {
        return Err(Refusal::WrongKind.at(0));
    }
    if tenancy == 0 {
        return Err(Refusal::OutOfRange.at(0));
    }
    if kind == PLAIN && 0 < age {
        return Err(Refusal::BadAmount.at(0));
    }
    if disks == 0 || (DISKS as u32) < disks || BLOCKS < q {
        return Err(Refusal::OutOfRange.at(0));
    }
    Ok(())
}

// Writes a request of a kind for a unit of so many disks, from a number of copies for each block.
pub fn write(
    kind: u32,
    unit: u32,
    tenancy: u32,
    age: u32,
    disks: u32,
    copies: &[u64],
    out: &mut [u8],
) -> Result<usize, Fault>
    ensures { Sent (request_draft kind unit tenancy age disks copies.now) out.old result out.new }
{
    judge(kind, tenancy, age, disks, copies.len())?;
    let n = size(copies, disks as usize)?;
    let heading = Head {
        kind,
        age,
        blocks: copies.len() as u32,
    };
    send(heading, unit, tenancy, copies, n, out)
}
