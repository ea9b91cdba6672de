// Reads a table file from standard input and tells what it holds, or why it is refused.
#![tactic(auto)]

use std::io;
use std::io::Read;
use tables::{MAX_LENGTH, vet};

// The first bytes of standard input, one more than the longest file that is accepted, so that a longer
// one is seen to be too long. The rest is read and dropped, so that the sender can finish.
fn input(rt: &HostRuntime) -> io::Result<Vec<u8>> {
    let mut bytes = Vec::new(rt.alloc());
    rt.stdin()
        .take(MAX_LENGTH as u64 + 1)
        .read_to_end(&mut bytes)?;
    io::copy(&mut rt.stdin(), &mut io::sink())?;
    Ok(bytes)
}

fn main(rt: HostRuntime) -> io::Result<()> {
    let bytes = input(&rt)?;
    match vet(&bytes) {
        Ok(census) => println!(rt; "{census}"),
        Err(fault) => println!(rt; "{fault}\n{}", fault.refusal),
    }
}
