// Lists lent as bytes, lowest byte first, and answers of several numbers as one.
#![tactic(auto)]

ghost use Rattle.std.specs.Simd.{first_chunks};
ghost use Rattle.std.specs.Prelude.{List, map, ◌≡◌, ℕ, ◌+◌, ◌*◌, ◌/◌, ◌≤◌, ◌<◌, length, take, replicate};
ghost use Rattle.basics.specs.Limits.{disks_most, blocks_most};
ghost use Rattle.field.specs.Put.{spell_all};
ghost use Rattle.field.specs.Refusal.{note_of};
ghost use Rattle.field.specs.Send.{told_written};
ghost use Rattle.basics.specs.Buffer.{over};
ghost use Rattle.plan.specs.Told.{told_plan};
ghost use Rattle.lent.specs.Numbers.{value_of, bytes_of, numbers, usable, Room};
ghost use Rattle.lent.specs.Packed.{lengths, pack_refused, writer_answer, reader_answer, Fits32, FitsBits};

use basics::{BLOCKS, DISKS};
use field::Fault;
use plan::Head;

// What Q, R and m are multiplied by in the plan reader's answer: 2 ^ 8, 2 ^ 19, 2 ^ 50.
const BLOCKS_AT: u64 = 256;

const TIME_AT: u64 = 524_288;

const SIZE_AT: u64 = 1_125_899_906_842_624;

// The upper 32 of 64 bits count this many: a writer's length, a refusal's place, and the high four of eight bytes.
const UPPER: u64 = 4_294_967_296;

// A refusal's answer: its number, and its place from bit 32 on.
pub fn refuse(f: Fault) -> u64
    requires { f.place < lengths }
    ensures { result ≡ pack_refused (note_of f) }
{
    u64::from(u32::from(f.refusal)) + f.place as u64 * UPPER
}

// A writer's answer: the length from bit 32 on, or the refusal.
pub fn pack_written(w: Result<usize, Fault>) -> u64
    requires { Fits32 w }
    ensures { result ≡ writer_answer (told_written w) }
{
    match w {
        Ok(n) => n as u64 * UPPER,
        Err(f) => refuse(f),
    }
}

// The plan reader's answer: Q from bit 8 on, R from bit 19 on, m from bit 50 on, or the refusal.
pub fn pack_plan(a: Result<Head, Fault>) -> u64
    requires { FitsBits a }
    ensures { (n : ℕ) → result ≡ reader_answer (told_plan n a) }
{
    match a {
        Ok(h) => h.blocks as u64 * BLOCKS_AT
            + u64::from(h.time) * TIME_AT
            + h.size as u64 * SIZE_AT,
        Err(f) => refuse(f),
    }
}

// Whether bytes are whole numbers of so many bytes, and not too many of them.
pub fn usable(bytes: &[u8], width: usize, most: usize) -> bool
    requires { 0 < width }
    ensures { result ≡ usable width most bytes.now }
{
    bytes.len() % width == 0 && bytes.len() / width <= most
}

// A number of W bytes, lowest byte first.
trait Bytewise<const W: usize>: Copy {
    ghost of_bytes: { List ℕ → Self };

    fn of_bytes(bytes: &[u8; W]) -> Self
        ensures { result ≡ of_bytes bytes.now };
}

impl Bytewise<4> for u32 {
    ghost of_bytes = { value_of };

    fn of_bytes(bytes: &[u8; 4]) -> u32 {
        u32::from_le_bytes(*bytes)
    }
}

impl Bytewise<8> for u64 {
    ghost of_bytes = { value_of };

    fn of_bytes(bytes: &[u8; 8]) -> u64 {
        u64::from_le_bytes(*bytes)
    }
}

// The numbers of a list, at the start of a buffer. Arrays of fixed length: the library crates have no heap.
fn gather<T: Bytewise<W>, const W: usize>(bytes: &[u8], out: &mut [T])
    requires { (0 < W) × (W ≤ 8) × (length bytes.now / W ≤ length out.old) }
    ensures { out.new ≡ over (map T.of_bytes (first_chunks W (length bytes.now / W) bytes.now)) out.old }
{
    for (i, part) in bytes.as_chunks::<W>().0.iter().enumerate() {
        out[i] = T::of_bytes(part);
    }
}

// The numbers of a list of costs, loads or delays, in the first of 64 places. This and the next are two uses of `gather`, for two limits.
pub fn fours(bytes: &[u8]) -> [u32; DISKS]
    requires { length bytes.now / 4 ≤ disks_most }
    ensures { result ≡ over (numbers 4 bytes.now) (replicate disks_most 0) }
{
    let mut out = [0; DISKS];
    gather(bytes, &mut out);
    out
}

// The copy numbers of a list of blocks, in the first of 1,024 places.
pub fn eights(bytes: &[u8]) -> [u64; BLOCKS]
    requires { length bytes.now / 8 ≤ blocks_most }
    ensures { result ≡ over (numbers 8 bytes.now) (replicate blocks_most 0) }
{
    let mut out = [0; BLOCKS];
    gather(bytes, &mut out);
    out
}

// Puts the first m numbers of a list at the start of a buffer, two bytes each: an array and a count, as plan's reader fills them.
pub fn put_pairs(xs: &[u16], m: usize, out: &mut [u8])
    requires { (m ≤ length xs.now) × (2 * m ≤ length out.old) }
    ensures { out.new ≡ over (spell_all (bytes_of 2) (take m xs.now)) out.old }
{
    for (i, x) in xs[..m].iter().enumerate() {
        let [low, high] = x.to_le_bytes();
        out[2 * i] = low;
        out[2 * i + 1] = high;
    }
}

// How many numbers of two bytes have room, as far as a short set can need it.
pub fn room(bytes: &[u8]) -> usize
    ensures { Room (length bytes.now / 2) result }
{
    BLOCKS.min(bytes.len() / 2)
}
