// The shop's program: reads standard input and prints what the counter answers.
#![tactic(auto)]

ghost use Rattle.std.specs.Prelude.{◌≤◌, length, take};
ghost use Rattle.std.specs.Io.KnownBytes.{Consumes};

use counter::{LONGEST_ANSWER, READ_AT_MOST, answer};
use std::io::{Read, Write};

// Reads until the buffer is full, the input ends or a read fails, and answers how many bytes stand at the buffer's front.
// `read_exact` says nothing of what it read before the end, and `read_to_end` allocates: so it is a loop over `read`.
fn read_full<R: Read>(from: &mut R, buf: &mut [u8]) -> usize
    ensures in_bounds { result ≤ length buf.new }
    ensures read { Consumes (R.remaining from.old) (R.remaining from.new) (take result buf.new) }
{
    let mut done = 0;
    while done < buf.len() {
        match from.read(&mut buf[done..]) {
            Ok(0) | Err(_) => break,
            Ok(n) => done += n,
        }
    }
    done
}

fn main(rt: HostRuntime) {
    let mut input = [0u8; READ_AT_MOST];
    let n = read_full(&mut rt.stdin(), &mut input);
    let mut out = [0u8; LONGEST_ANSWER];
    let k = answer(&input[..n], &mut out);
    if rt.stdout().write_all(&out[..k]).is_err() {
        let _ = rt
            .stderr()
            .write_all(b"shop: the answer could not be written\n");
    }
}
