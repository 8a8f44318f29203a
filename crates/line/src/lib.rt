// What the programs print: lines of text at the start of a lent buffer, which has room for the longest.
#![tactic(auto)]

ghost use Rattle.std.specs.Prelude.{◌<◌, ◌≡◌, [], ◌∷◌, ◌++◌};
ghost use Rattle.field.specs.Put.{spell_all};
ghost use Rattle.field.specs.Refusal.{number_of};
ghost use Rattle.line.specs.Text.{decimal, spaced, hex};
ghost use Rattle.line.specs.Text.{digit as digit_of};
ghost use Rattle.line.specs.Line.{feed, word_plan, spoken, plan_line, sheet_line};
ghost use Rattle.line.specs.Printed.{Printed};
ghost use Rattle.line.specs.Parts.{Writes};

use basics::BLOCKS;
use field::Fault;
use number::Numeral;

// The bytes of a line's buffer, and of the longest sheet that has room there in hex.
pub const LINE_MOST: usize = 65536;

pub const SHEET_MOST: usize = (LINE_MOST - 6) / 2;

pub type Line = [u8; LINE_MOST];

// What a line can say in a word, or in a word and one or two numbers. Refusals and reasons come as their numbers: a line of any number
// is promised (`say`), and the reasons are of a crate above.
#[derive(Clone, Copy)]
pub enum Word {
    Rented,
    Set,
    Returned,
    Refused(u32),
    RefusedAt(u32, usize),
    Stopped(u32),
    Reason(u32, u32),
}

// A digit below 16: the definition's `digit` in code.
fn digit(d: u8) -> u8
    requires { d < 16 }
    ensures { result ≡ digit_of d }
{
    if d < 10 { b'0' + d } else { b'a' - 10 + d }
}

// A lent buffer, and the place where the next byte goes. Not field's pen, which puts numbers: another crate's struct takes no methods here.
#[derive(Drop)]
struct Pen<'a> {
    out: &'a mut [u8],
    at: usize,
}

impl Pen<'_> {
    // Puts a byte; where it has no room, changes nothing.
    fn byte(&mut self, b: u8)
        ensures { Writes (b ∷ []) self.old self.new }
    {
        if self.at < self.out.len() {
            self.out[self.at] = b;
            self.at += 1;
        }
    }

    fn text(&mut self, text: &[u8])
        ensures { Writes text.now self.old self.new }
    {
        for b in text {
            self.byte(*b);
        }
    }

    // The digits before the last one go first.
    fn decimal(&mut self, v: u64)
        ensures { Writes (decimal v) self.old self.new }
    {
        if v < 10 {
            self.byte(b'0' + v as u8);
        } else {
            self.decimal(v / 10);
            self.byte(b'0' + (v % 10) as u8);
        }
    }

    fn spaced(&mut self, v: u64)
        ensures { Writes (spaced v) self.old self.new }
    {
        self.byte(b' ');
        self.decimal(v);
    }

    // The numbers of a list, each behind a space.
    fn list<T: Numeral>(&mut self, xs: &[T])
        ensures { Writes (spell_all (λ x. spaced (T.value x)) xs.now) self.old self.new }
    {
        for x in xs {
            let v: u32 = (*x).into();
            self.spaced(u64::from(v));
        }
    }

    // Two digits for each byte. Whether they have room is asked once: byte by byte, a plan's line took an eighth more instructions.
    fn hex(&mut self, xs: &[u8])
        ensures { Writes (hex xs.now) self.old self.new }
    {
        let room = self.out.len().saturating_sub(self.at);
        if xs.len() <= room / 2 {
            let mut at = self.at;
            for b in xs {
                self.out[at] = digit(b / 16);
                self.out[at + 1] = digit(b % 16);
                at += 2;
            }
            self.at = at;
        }
    }

    // A word, and the end of the line.
    fn plain(&mut self, word: &[u8])
        ensures { Writes (word.now ++ feed) self.old self.new }
    {
        self.text(word);
        self.byte(b'\n');
    }

    // A word, a number, and the end of the line.
    fn numbered(&mut self, word: &[u8], n: u32)
        ensures { Writes (word.now ++ (spaced n ++ feed)) self.old self.new }
    {
        self.text(word);
        self.spaced(u64::from(n));
        self.byte(b'\n');
    }

    // A word, a number and a place or a time, and the end of the line.
    fn placed(&mut self, word: &[u8], n: u32, place: u64)
        ensures { Writes (word.now ++ (spaced n ++ (spaced place ++ feed))) self.old self.new }
    {
        self.text(word);
        self.spaced(u64::from(n));
        self.spaced(place);
        self.byte(b'\n');
    }

    fn word(&mut self, w: Word)
        ensures { Writes (spoken w) self.old self.new }
    {
        match w {
            Word::Rented => self.plain(b"rented"),
            Word::Set => self.plain(b"set"),
            Word::Returned => self.plain(b"returned"),
            Word::Refused(n) => self.numbered(b"refused", n),
            Word::RefusedAt(n, place) => self.placed(b"refused", n, place as u64),
            Word::Stopped(n) => self.numbered(b"stopped", n),
            Word::Reason(k, t) => self.placed(b"reason", k, u64::from(t)),
        }
    }

    // The fields before the lists. Unit and tenancy one by one, here and in `plan_line`: two numbers of a plan, each printed once.
    fn heading(&mut self, unit: u32, tenancy: u32, q: u32, time: u32)
        ensures { Writes (word_plan ++ spell_all spaced (unit ∷ tenancy ∷ q ∷ time ∷ [])) self.old self.new }
    {
        self.text(b"plan");
        self.list(&[unit, tenancy, q, time]);
    }

    // A list behind its bar. Each list of a line is told its own, so that a slip in one of them is a slip in that one.
    fn barred<T: Numeral>(&mut self, bar: &[u8], xs: &[T])
        ensures { Writes (bar.now ++ spell_all (λ x. spaced (T.value x)) xs.now) self.old self.new }
    {
        self.text(bar);
        self.list(xs);
    }
}

pub fn say(w: Word, line: &mut Line) -> usize
    ensures { Printed (spoken w) line.old result line.new }
{
    let mut pen = Pen { out: line, at: 0 };
    pen.word(w);
    pen.at
}

// The line of a refusal, without its place.
pub fn refuse(f: Fault, line: &mut Line) -> usize
    ensures { Printed (spoken (Word.Refused (number_of f.refusal))) line.old result line.new }
{
    say(Word::Refused(u32::from(f.refusal)), line)
}

// The line of a refusal, with its place.
pub fn refuse_at(f: Fault, line: &mut Line) -> usize
    ensures { Printed (spoken (Word.RefusedAt (number_of f.refusal) f.place)) line.old result line.new }
{
    say(Word::RefusedAt(u32::from(f.refusal), f.place), line)
}

// A plan's line; where a list has more than 1,024 entries, answers 0 and changes nothing. No Option: the answer is how many bytes there
// are to print, and then there are none (`Printed`).
pub fn plan_line(
    unit: u32,
    tenancy: u32,
    time: u32,
    disks: &[u8],
    short: &[u16],
    line: &mut Line,
) -> usize
    ensures { Printed (plan_line unit tenancy (record { time = time; disks = disks.now; short = short.now }))
        line.old result line.new }
{
    if BLOCKS < disks.len() || BLOCKS < short.len() {
        return 0;
    }
    let mut pen = Pen { out: line, at: 0 };
    pen.heading(unit, tenancy, disks.len() as u32, time);
    pen.barred(b" |", disks);
    pen.barred(b" |", short);
    pen.byte(b'\n');
    pen.at
}

// A plan sheet's line in hex; where the line would be longer than its buffer, answers 0 and changes nothing, as `plan_line`.
pub fn sheet_line(sheet: &[u8], line: &mut Line) -> usize
    ensures { Printed (sheet_line sheet.now) line.old result line.new }
{
    if SHEET_MOST < sheet.len() {
        return 0;
    }
    let mut pen = Pen { out: line, at: 0 };
    pen.text(b"plan ");
    pen.hex(sheet);
    pen.byte(b'\n');
    pen.at
}
