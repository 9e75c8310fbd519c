// Runs the bench cases that a log cannot hold. Each line of standard input is a case, and is written again with its answer.
#![tactic(auto)]

mod calls;
mod cases;
mod input;
mod kinds;
mod print;
mod state;

ghost use Rattle.std.specs.Prelude.{◌≤◌, length};

use cases::Bench;
use std::io::Read;

// The longest input. What comes after it is not read.
const INPUT_BYTES: usize = 65536;

// Reads until the buffer is full, the input ends or a read fails: how many bytes stand at the start of the buffer. No Vec, with which
// lines would be lost where memory runs out.
fn read_full(from: &mut impl Read, buffer: &mut [u8]) -> usize
    ensures { result ≤ length buffer.new }
{
    let mut done = 0;
    while done < buffer.len() {
        match from.read(&mut buffer[done..]) {
            Ok(0) | Err(_) => return done,
            Ok(n) => done += n,
        }
    }
    done
}

// Where a read fails, the lines that came before it are run.
fn main(rt: HostRuntime) {
    let mut buffer = [0u8; INPUT_BYTES];
    let count = read_full(&mut rt.stdin(), &mut buffer);
    let mut bench = Bench::new();
    for line in buffer[..count].split(|b| *b == b'\n') {
        bench.run(&rt, line);
    }
}
