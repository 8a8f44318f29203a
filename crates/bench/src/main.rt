// The bench: reads unit, tenancy, settings sheet and read request from standard input, and prints one line.
#![tactic(auto)]

ghost use Rattle.std.specs.Prelude.{◌≤◌, ◌<◌, length};
ghost use Rattle.console.specs.Bench.{input_most};
ghost use Rattle.bench.specs.Parts.{Answers};

use console::INPUT_MOST;
use line::{LINE_MOST, Line};
use wire::Failed;

// One byte more than the longest input shows that input follows the second sheet.
const BUFFER: usize = INPUT_MOST + 1;

// The line of all of the input, whatever follows a buffer that is full. n beside the buffer: `Answers` speaks of both.
fn answer(input: &[u8], n: usize, line: &mut Line) -> usize
    requires { (n ≤ length input.now) × (input_most < length input.now) }
    ensures { Answers input.now n line.old result line.new }
{
    console::bench(&input[..n], line)
}

fn run(rt: &HostRuntime) -> Result<(), Failed> {
    // No memory is asked for, so that none can run out.
    let mut input = [0u8; BUFFER];
    let mut line = [0u8; LINE_MOST];
    let n = wire::read_all(rt, &mut rt.stdin(), &mut input)?;
    let length = answer(&input, n, &mut line);
    wire::print(rt, &line[..length])
}

// What failed is told by then, and the status is the same.
fn main(rt: HostRuntime) {
    let _ = run(&rt);
}
