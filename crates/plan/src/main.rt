// Reads a net text from standard input, and prints its timetable or why it has none.
#![tactic(auto)]

ghost use Rattle.std.specs.Prelude.{◌≤◌, length, IfOk};

use plans::plan;
use std::io;
use std::io::{Read, Write};

// Fills the buffer from the input, until it is full or the input ends.
// A loop: the library reads on to the end into a Vec alone, and this program, like the engine, asks for no memory.
fn fill(input: &mut impl Read, buffer: &mut [u8]) -> io::Result<usize>
    ensures { IfOk result (λ n. n ≤ length buffer.old) }
{
    let mut at = 0;
    while at < buffer.len() {
        let part = &mut buffer[at..];
        let n = input.read(part)?;
        if n == 0 {
            break;
        }
        at += n;
    }
    Ok(at)
}

fn main(rt: HostRuntime) -> io::Result<()> {
    let mut text = [0u8; 16_384];
    let length = fill(&mut rt.stdin(), &mut text)?;
    let mut report = [0u8; 4_096];
    let Ok(end) = plan(&text[..length], &mut report) else {
        return Ok(());
    };
    rt.stdout().write_all(&report[..end])
}
