// One number of a sheet: read it, write it in its shortest form, find its width.
#![tactic(auto)]

ghost use Rattle.std.specs.Prelude.{◌≡◌, ◌≤◌, ◌<◌, length, get_or};
ghost use Rattle.number.specs.Decode.{decode, more};
ghost use Rattle.number.specs.Encode.{width_of, WroteNumber};
ghost use Rattle.number.specs.Told.{told};

mod numeral;

pub use numeral::Numeral;

// Why no number stands at the start of a list of bytes.
#[derive(Clone, Copy, Debug, PartialEq, Eq)]
pub enum Broken {
    // The bytes end inside the number, or before it.
    Ends,
    // Not the shortest form, or too large.
    Malformed,
}

// A value, and the bytes it used.
pub type Number = Result<(u32, usize), Broken>;

// The groups after the first, where `left` more may follow the next one.
fn groups(s: &[u8], left: u32) -> Number
    requires { left ≤ 3 }
    ensures { told result ≡ more left s.now }
{
    let Some(first) = s.first() else {
        return Err(Broken::Ends);
    };
    let b = u32::from(*first);
    if b == 0 {
        return Err(Broken::Malformed);
    }
    if left == 0 {
        return if b < 16 {
            Ok((b, 1))
        } else {
            Err(Broken::Malformed)
        };
    }
    if b < 128 {
        return Ok((b, 1));
    }
    let (v, n) = groups(&s[1..], left - 1)?;
    Ok((b % 128 + 128 * v, n + 1))
}

// A number of two bytes or more, whose first is told. A function of its own: a place for what `groups` answers is cleared where a function
// begins, and most of a request's numbers have one byte.
fn longer(b: u32, s: &[u8]) -> Number
    requires { (0 < length s.now) × (get_or s.now 0 0 ≡ b) × (128 ≤ b) }
    ensures { told result ≡ decode s.now }
{
    let (v, n) = groups(&s[1..], 3)?;
    Ok((b % 128 + 128 * v, n + 1))
}

// The number at the start of a slice.
pub fn read(s: &[u8]) -> Number
    ensures { told result ≡ decode s.now }
{
    let Some(first) = s.first() else {
        return Err(Broken::Ends);
    };
    let b = u32::from(*first);
    if b < 128 {
        return Ok((b, 1));
    }
    longer(b, s)
}

// The bytes of the shortest form.
pub fn width(v: u32) -> usize
    ensures { result ≡ width_of v }
{
    if v < 128 {
        return 1;
    }
    if v < 16384 {
        return 2;
    }
    if v < 2097152 {
        return 3;
    }
    if v < 268435456 { 4 } else { 5 }
}

// Writes the shortest form, group after group.
fn write_groups(v: u32, out: &mut [u8]) -> Option<usize>
    ensures { WroteNumber v out.old result out.new }
{
    if out.len() == 0 {
        return None;
    }
    if v < 128 {
        out[0] = v as u8;
        return Some(1);
    }
    // The rest goes first, so that a number with no room has changed nothing.
    let n = write_groups(v / 128, &mut out[1..])?;
    out[0] = (v % 128 + 128) as u8;
    Some(n + 1)
}

// Writes the shortest form at the start of a slice and answers its width; where it has no room, answers None and changes nothing.
// One byte and two, which nearly all numbers have, are written in place.
pub fn write(v: u32, out: &mut [u8]) -> Option<usize>
    ensures { WroteNumber v out.old result out.new }
{
    if 16384 <= v {
        return write_groups(v, out);
    }
    if out.len() == 0 {
        return None;
    }
    if v < 128 {
        out[0] = v as u8;
        return Some(1);
    }
    if out.len() == 1 {
        return None;
    }
    out[0] = (v % 128 + 128) as u8;
    out[1] = (v / 128) as u8;
    Some(2)
}
