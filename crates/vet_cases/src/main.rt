// Vets one table file for each line of standard input, so that many are compared in one run.
// A line has the file's bytes as pieces with spaces between: hexadecimal digits, or one byte, `x` and
// how many times it stands there.
#![tactic(auto)]

ghost use Rattle.std.specs.Prelude.{◌<◌, IfOk};

use anyhow::anyhow;
use std::io::{BufRead, BufReader};
use tables::{MAX_LENGTH, vet};

// By cases, since `to_digit` takes capital letters too, which are no digits here.
fn nibble(digit: u8) -> anyhow::Result<u8>
    ensures { IfOk result (λ n. n < 16) }
{
    match digit {
        b'0'..=b'9' => Ok(digit - b'0'),
        b'a'..=b'f' => Ok(digit - b'a' + 10),
        _ => Err(anyhow!("no hexadecimal digit")),
    }
}

fn byte_of(high: u8, low: u8) -> anyhow::Result<u8> {
    Ok(nibble(high)? * 16 + nibble(low)?)
}

// Adds a byte, unless there are enough to see that the file is too long.
fn put(file: &mut Vec<u8>, byte: u8) -> anyhow::Result<()> {
    if file.len() <= MAX_LENGTH {
        file.push(byte)?;
    }
    Ok(())
}

fn put_run(file: &mut Vec<u8>, byte: &str, count: &str) -> anyhow::Result<()> {
    let &[high, low] = byte.as_bytes() else {
        return Err(anyhow!("a run is of one byte"));
    };
    let byte = byte_of(high, low)?;
    for _ in 0..count.parse::<u32>()? {
        put(file, byte)?;
    }
    Ok(())
}

fn put_digits(file: &mut Vec<u8>, digits: &str) -> anyhow::Result<()> {
    for pair in digits.as_bytes().chunks(2) {
        let &[high, low] = pair else {
            return Err(anyhow!("a byte has two digits"));
        };
        put(file, byte_of(high, low)?)?;
    }
    Ok(())
}

fn report(rt: &HostRuntime, line: &str) -> anyhow::Result<()> {
    let mut file = Vec::new(rt.alloc());
    for piece in line.split_whitespace() {
        match piece.split_once('x') {
            Some((byte, count)) => put_run(&mut file, byte, count)?,
            None => put_digits(&mut file, piece)?,
        }
    }
    match vet(&file) {
        Ok(census) => println!(rt; "{census}")?,
        Err(fault) => println!(rt; "{fault}\n{}", fault.refusal)?,
    }
    Ok(())
}

fn main(rt: HostRuntime) -> anyhow::Result<()> {
    for line in BufReader::new(rt.alloc(), rt.stdin())?.lines(rt.alloc()) {
        let line = line?;
        report(&rt, line.as_str())?;
    }
    Ok(())
}
