// `lineage` reads a house file on standard input and prints its answers, or its refusal.
#![tactic(auto)]

ghost use Rattle.std.specs.Prelude.{◌≤◌, length, IfOk};

use std::io;
use std::io::Read;

// Reads until `buf` is full or the input ends: how many bytes it put at the front of `buf`. `read_exact` would not tell how many, and
// `read_to_end` fills a `Vec`, on the heap.
fn read_full(input: &mut impl Read, buf: &mut [u8]) -> io::Result<usize>
    ensures { IfOk result (λ n. n ≤ length buf.new) }
{
    let mut done = 0;
    while done < buf.len() {
        let n = input.read(&mut buf[done..])?;
        if n == 0 {
            return Ok(done);
        }
        done += n;
    }
    Ok(done)
}

fn main(rt: HostRuntime) -> io::Result<()> {
    // One byte past the limit, so that a longer input shows.
    let mut input = [0u8; 49153];
    // All that the longest text takes, so that `run` always writes.
    let mut output = [0u8; 33792];
    let n = read_full(&mut rt.reader(), &mut input)?;
    let Ok(k) = run::run(&input[..n], &mut output) else {
        return Ok(());
    };
    rt.stdout().write_all(&output[..k])
}
