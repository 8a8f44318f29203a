// Standard input and output: what a read and a write did, told apart. What they read and write no promise can say.
#![tactic(auto)]

ghost use Rattle.std.specs.Prelude.{◌<◌, ◌≤◌, ◌≡◌, length};
ghost use Rattle.wire.specs.Input.{came, Reads, Fills};

use std::fmt::Write;
use std::io::{ErrorKind, Read};
use std::{fmt, io};

// A read or a write failed, and standard error says why.
#[derive(Clone, Copy, Debug, PartialEq, Eq)]
pub struct Failed;

// What one read came to: so many bytes; none yet; the end of the input.
#[derive(Clone, Copy, Debug, PartialEq, Eq)]
pub enum Input {
    Bytes(usize),
    Later,
    End,
}

// One read behind the bytes that are there. An interrupted read, and an input that does not wait and has nothing, is no end.
pub fn read_behind(
    rt: &impl Eprint,
    stdin: &mut impl Read,
    buf: &mut [u8],
    have: usize,
) -> Result<Input, Failed>
    requires { have < length buf.old }
    ensures { Reads buf.old have result buf.new }
{
    match stdin.read(&mut buf[have..]) {
        Ok(0) => Ok(Input::End),
        Ok(n) => Ok(Input::Bytes(n)),
        Err(error) => unread(rt, error),
    }
}

// What a read that failed comes to.
fn unread(rt: &impl Eprint, error: io::Error) -> Result<Input, Failed>
    ensures { came result ≡ 0 }
{
    match error.kind() {
        ErrorKind::Interrupted | ErrorKind::WouldBlock => Ok(Input::Later),
        _ => {
            say(rt, "standard input", error);
            Err(Failed)
        }
    }
}

// Reads until the buffer is full or the input ends, and answers how many bytes came. A proved loop has to end, and nothing says
// that the input does: it makes at most so many reads as no run uses up.
pub fn read_all(rt: &impl Eprint, stdin: &mut impl Read, buf: &mut [u8]) -> Result<usize, Failed>
    ensures { Fills buf.old result buf.new }
{
    let mut have: usize = 0;
    for _ in 0..u64::MAX {
        if buf.len() <= have {
            return Ok(have);
        }
        match read_behind(rt, stdin, buf, have)? {
            Input::Bytes(n) => have += n,
            Input::Later => {}
            Input::End => return Ok(have),
        }
    }
    Err(Failed)
}

// Writes all of a line; where that fails, standard error says why, and some of the line may have been written.
pub fn print(rt: &(impl Print + Eprint), line: &[u8]) -> Result<(), Failed> {
    write_whole(rt, line).map_err(|error| {
        say(rt, "standard output", error);
        Failed
    })
}

// A write that fails is not made again, not even one that a signal interrupts, as the library's own way of writing all would.
fn write_whole(rt: &impl Print, line: &[u8]) -> io::Result<()> {
    let mut rest = line;
    // A write takes what it takes: no count tells when the line is out.
    while !rest.is_empty() {
        let n = rt.write_some(rest)?;
        if n == 0 {
            return Err(io::Error::from(ErrorKind::WriteZero));
        }
        rest = &rest[n..];
    }
    Ok(())
}

// A line to standard error: what failed, a colon and why. Where that line cannot be written, nothing is left to say it to.
fn say(rt: &impl Eprint, what: &str, error: io::Error) {
    let why = Why { error };
    let _ = eprintln!(rt; "{what}: {why}");
}

// The words of an error, without its number.
#[derive(Drop)]
struct Why {
    error: io::Error,
}

impl fmt::Display for Why {
    fn fmt<W: fmt::Write>(&self, f: &mut fmt::Formatter<W>) -> fmt::Result {
        let mut words = Words::new();
        let error = self.error;
        write!(words, "{error}")?;
        f.write_str(words.before_number())
    }
}

// What the library says of an error at most, and a good deal more.
const WORDS_MOST: usize = 128;

// Text that is kept as far as there is room: fixed memory, so that a failure can be told when no memory is left to ask for.
#[derive(Drop)]
struct Words {
    bytes: [u8; WORDS_MOST],
    len: usize,
}

impl Words {
    fn new() -> Words {
        Words {
            bytes: [0; WORDS_MOST],
            len: 0,
        }
    }

    // The text up to where the library begins to tell the error's number.
    fn before_number(&self) -> &str {
        let len = self.len.min(WORDS_MOST);
        match std::str::from_utf8(&self.bytes[..len]) {
            Ok(text) => match text.split_once(" (os error ") {
                Some((words, _)) => words,
                None => text,
            },
            Err(_) => "",
        }
    }
}

impl fmt::Write for Words {
    fn write_str(&mut self, s: &str) -> fmt::Result {
        for byte in s.bytes() {
            if self.len < WORDS_MOST {
                self.bytes[self.len] = byte;
                self.len += 1;
            }
        }
        Ok(())
    }
}
