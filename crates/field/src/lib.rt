// What every sheet is made of: the refusals, reading a field at a place, writing a field into a lent buffer.
#![tactic(auto)]

ghost use Rattle.std.specs.Prelude.{◌≡◌, length};
ghost use Rattle.field.specs.Field.{number as number_at, between as between_of, tenancy as tenancy_of, kind as kind_of};
ghost use Rattle.field.specs.Field.{addressed as addressed_of, opening as opening_of, end as end_of};
ghost use Rattle.field.specs.Field.{exactly as exactly_of, inside as inside_of, rising as rising_of};
ghost use Rattle.basics.specs.Lists.{listed};
ghost use Rattle.number.specs.Encode.{encode};
ghost use Rattle.field.specs.Put.{spell_all, opening_bytes, field_if};
ghost use Rattle.field.specs.Pen.{Puts, Lays};
ghost use Rattle.field.specs.Refusal.{number_of, fault_at};
ghost use Rattle.field.specs.Told.{told};

use number::{Broken, Numeral};

// Why a sheet or a call is refused.
#[derive(Clone, Copy, Debug, PartialEq, Eq)]
pub enum Refusal {
    // The sheet ends inside a number or before one that is due.
    SheetEnds,
    // A number is not in shortest form or is too large.
    BadNumber,
    // The kind is not the one this call takes.
    WrongKind,
    // The unit number differs.
    WrongUnit,
    // Not rented, or the tenancy differs.
    WrongTenancy,
    // A count is out of its range; in a writer also tenancy 0, or lists that are unequal or broken.
    OutOfRange,
    // A block with no copies.
    NoCopy,
    // A disk or block number is not above the one before it.
    NotRising,
    // Bytes follow the last field.
    BytesFollow,
    // A read request before any settings.
    NoSettings,
    // The result is longer than the lent buffer.
    NoRoom,
    // Rent while rented.
    Rented,
    // Rent not above the last tenancy.
    NotAbove,
    // Return while not rented, or of another tenancy.
    NotTheTenant,
    // A cost, load, delay, start rule, mark or plan time is out of its range.
    BadAmount,
    // A disk or block number is out of its range.
    BadIndex,
    // All copies of a block are out.
    AllOut,
}

// A refusal, and the place that it tells: a byte of the sheet or its end; with NoRoom what was needed; 0 where no sheet is at fault, as
// document 01 has it (`unplaced`).
#[derive(Clone, Copy, Debug, PartialEq, Eq)]
pub struct Fault {
    pub refusal: Refusal,
    pub place: usize,
}

// What reading a field gives: its value and the place after it, or the refusal.
pub type Field = Result<(u32, usize), Fault>;

// The paper's number of a refusal.
impl From<Refusal> for u32 {
    ghost from_gives = { λ e n. n ≡ number_of e };

    fn from(e: Refusal) -> u32 {
        match e {
            Refusal::SheetEnds => 1,
            Refusal::BadNumber => 2,
            Refusal::WrongKind => 3,
            Refusal::WrongUnit => 4,
            Refusal::WrongTenancy => 5,
            Refusal::OutOfRange => 6,
            Refusal::NoCopy => 7,
            Refusal::NotRising => 8,
            Refusal::BytesFollow => 9,
            Refusal::NoSettings => 10,
            Refusal::NoRoom => 11,
            Refusal::Rented => 12,
            Refusal::NotAbove => 13,
            Refusal::NotTheTenant => 14,
            Refusal::BadAmount => 15,
            Refusal::BadIndex => 16,
            Refusal::AllOut => 20,
        }
    }
}

impl Refusal {
    // The refusal, at a place.
    pub fn at(self, place: usize) -> Fault
        ensures { result ≡ fault_at self place }
    {
        Fault {
            refusal: self,
            place,
        }
    }
}

// Any number at a place.
pub fn number(s: &[u8], at: usize) -> Field
    ensures { told result ≡ number_at s.now at }
{
    if s.len() <= at {
        return Err(Refusal::SheetEnds.at(s.len()));
    }
    match number::read(&s[at..]) {
        Ok((v, n)) => Ok((v, at + n)),
        Err(Broken::Ends) => Err(Refusal::SheetEnds.at(s.len())),
        Err(Broken::Malformed) => Err(Refusal::BadNumber.at(at)),
    }
}

// A number from `low` to `high`, told what to refuse it with where it is above, and where it is below.
pub fn between(s: &[u8], at: usize, low: u32, high: u32, under: Refusal, above: Refusal) -> Field
    ensures { told result ≡ between_of low high (number_of under) (number_of above) s.now at }
{
    let (v, next) = number(s, at)?;
    if high < v {
        return Err(above.at(at));
    }
    if v < low {
        return Err(under.at(at));
    }
    Ok((v, next))
}

// A number that must be the given one. This and the next two are names for `between`, the one reader.
pub fn exactly(s: &[u8], at: usize, want: u32, refusal: Refusal) -> Field
    ensures { told result ≡ exactly_of want (number_of refusal) s.now at }
{
    between(s, at, want, want, refusal, refusal)
}

// A number within a range.
pub fn inside(s: &[u8], at: usize, low: u32, high: u32, refusal: Refusal) -> Field
    ensures { told result ≡ inside_of low high (number_of refusal) s.now at }
{
    between(s, at, low, high, refusal, refusal)
}

// A number up to the last of its range that is not below the first that rises.
pub fn rising(s: &[u8], at: usize, floor: u32, high: u32) -> Field
    ensures { told result ≡ rising_of floor high s.now at }
{
    between(s, at, floor, high, Refusal::NotRising, Refusal::BadIndex)
}

// The tenancy that is due; where none is, every number is refused.
pub fn tenancy(s: &[u8], at: usize, due: u32) -> Field
    ensures { told result ≡ tenancy_of due s.now at }
{
    if due == 0 {
        return between(s, at, 1, 0, Refusal::WrongTenancy, Refusal::WrongTenancy);
    }
    exactly(s, at, due, Refusal::WrongTenancy)
}

// The kind of a sheet, out of the kinds that a call takes: numbers, since each sheet has its own.
pub fn kind(s: &[u8], kinds: &[u32]) -> Field
    ensures { told result ≡ kind_of kinds.now s.now 0 }
{
    let (k, next) = number(s, 0)?;
    if !kinds.contains(&k) {
        return Err(Refusal::WrongKind.at(0));
    }
    Ok((k, next))
}

// The unit and the tenancy that a sheet is for.
// Unit and tenancy one by one: two numbers of the sheet's opening, each looked at once; a struct would be made and opened at each call.
pub fn addressed(s: &[u8], at: usize, unit: u32, due: u32) -> Field
    ensures { told result ≡ addressed_of unit due s.now at }
{
    let (_, next) = exactly(s, at, unit, Refusal::WrongUnit)?;
    tenancy(s, next, due)
}

// Kind, unit and tenancy, with which every sheet opens: the kind, a number out of those that a call takes, as in `kind`.
pub fn opening(s: &[u8], kinds: &[u32], unit: u32, due: u32) -> Field
    ensures { told result ≡ opening_of kinds.now unit due s.now 0 }
{
    let (k, at) = kind(s, kinds)?;
    let (_, next) = addressed(s, at, unit, due)?;
    Ok((k, next))
}

// The end of the sheet. 0 where there is no value: the definition's `end` gives it.
pub fn end(s: &[u8], at: usize) -> Field
    ensures { told result ≡ end_of s.now at }
{
    if at != s.len() {
        return Err(Refusal::BytesFollow.at(at));
    }
    Ok((0, at))
}

// The bytes of a field that a sheet has or has not, by its kind.
pub fn width_if(held: bool, v: u32) -> usize
    ensures { result ≡ length (field_if held v) }
{
    if held { number::width(v) } else { 0 }
}

// A lent buffer, and the place where the next field goes; a place past its end has room for nothing.
#[derive(Drop)]
pub struct Pen<'a> {
    pub out: &'a mut [u8],
    pub at: usize,
}

impl Pen<'_> {
    // Puts a field and moves the place behind it; where it has no room, changes nothing. It answers nothing: the writers have found the
    // length before.
    pub fn put(&mut self, v: u32)
        ensures { Puts v self.old self.new }
    {
        if self.at <= self.out.len() {
            self.at += number::write(v, &mut self.out[self.at..]).unwrap_or(0);
        }
    }

    // Puts a field that a sheet has or has not, where it has room.
    pub fn put_if(&mut self, held: bool, v: u32)
        ensures { Lays (field_if held v) self.old self.new }
    {
        if held {
            self.put(v);
        }
    }

    // Puts kind, unit and tenancy, where they have room. The kind is a number: each sheet has kinds of its own, and none is known here.
    pub fn opening(&mut self, kind: u32, unit: u32, tenancy: u32)
        ensures { Lays (opening_bytes kind unit tenancy) self.old self.new }
    {
        self.put(kind);
        self.put(unit);
        self.put(tenancy);
    }

    // Puts the numbers of a list, where they have room.
    pub fn list<T: Numeral>(&mut self, xs: &[T])
        ensures { Lays (spell_all (λ x. encode (T.value x)) xs.now) self.old self.new }
    {
        for x in xs {
            self.put((*x).into());
        }
    }
}
