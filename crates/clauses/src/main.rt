// Reads rules from standard input, one a line, and prints how each is read: its clauses by their numbers,
// or why it is refused.
#![tactic(auto)]

use lines::LineBuffer;
use rules::{Rule, read};
use std::io;
use std::io::Read;

fn print_rule(rt: &HostRuntime, rule: &Rule) -> io::Result<()> {
    let count = rule.count();
    let nesting = rule.nesting();
    println!(rt; "{count} clauses, nesting {nesting}")?;
    for (number, clause) in rule.clauses().iter().enumerate() {
        println!(rt; "{number} {clause}")?;
    }
    Ok(())
}

fn print_reading(rt: &HostRuntime, text: &[u8]) -> io::Result<()> {
    match read(text) {
        Ok(rule) => print_rule(rt, &rule),
        Err(fault) => println!(rt; "{fault}"),
    }
}

// Takes bytes into the line, and prints the reading of each line that they end.
fn take_bytes(rt: &HostRuntime, bytes: &[u8], line: &mut LineBuffer) -> io::Result<()> {
    for byte in bytes {
        match *byte {
            b'\n' => {
                print_reading(rt, line.text())?;
                line.clear();
            }
            byte => line.push(byte),
        }
    }
    Ok(())
}

// Block by block, and no line as a whole, since a line may have any length and no more of it is kept than
// the line's buffer takes. The block lies on the stack: the library's buffered reader would ask for memory,
// which may not be there, and gives byte by byte what is quicker taken from a slice.
fn main(rt: HostRuntime) -> io::Result<()> {
    let mut line = LineBuffer::new();
    let mut block = [0u8; 4096];
    for _ in 0..u64::MAX {
        match rt.stdin().read(&mut block)? {
            0 => break,
            count => take_bytes(&rt, &block[..count], &mut line)?,
        }
    }
    if !line.is_empty() {
        print_reading(&rt, line.text())?;
    }
    Ok(())
}
