// What the counter answers to each sample of document 01, under the sample's name. A file of data/ is a whole standard input.
#![tactic(auto)]

use counter::{LONGEST_ANSWER, answer};
use std::io::Write;
use std::{fs, io};

fn case(rt: &HostRuntime, name: &str) -> io::Result<()> {
    let input = fs::read(rt, name)?;
    let mut out = [0u8; LONGEST_ANSWER];
    let k = answer(input.as_slice(), &mut out);
    println!(rt; "{name}")?;
    rt.stdout().write_all(&out[..k])
}

fn main(rt: HostRuntime) -> io::Result<()> {
    for name in [
        "A.stdin",
        "B.stdin",
        "B-budget-4.stdin",
        "C.stdin",
        "C-budget-2.stdin",
        "D.stdin",
        "E.stdin",
        "F.stdin",
        "G.stdin",
        "G-also.stdin",
        "H-12.stdin",
        "H-13.stdin",
        "H-4097.stdin",
        "I-2.stdin",
        "I-3.stdin",
        "I-4.stdin",
    ] {
        case(&rt, name)?;
    }
    Ok(())
}
