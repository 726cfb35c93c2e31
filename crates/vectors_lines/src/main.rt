// What `for_each_line` tells, which the programs that run examples keep to themselves: of an input that fills its buffer, of lines up to one
// that can't be shown, and of no line at all.
#![tactic(auto)]

use lines::input::for_each_line;
use std::io::{Error, ErrorKind, Result};

// The room of the first call, which the input fills.
const FIRST: usize = 6;

// That of the other two: one reads what is left, the last finds nothing.
const ROOM: usize = 64;

// A line with `!` at its front is one that can't be shown.
fn show(rt: &impl Print, line: &[u8]) -> Result<()> {
    if line.starts_with(b"!") {
        return Err(Error::from(ErrorKind::InvalidData));
    }
    print!(rt; "line: ")?;
    rt.write_all(line)?;
    println!(rt; "")
}

fn tell(rt: &impl Print, buffer: &mut [u8]) -> Result<()> {
    match for_each_line(rt, buffer, |line| show(rt, line)) {
        Ok(()) => println!(rt; "no failure"),
        Err(error) if error.kind() == ErrorKind::InvalidData => println!(rt; "the line's failure"),
        Err(_) => println!(rt; "another failure"),
    }
}

fn main(rt: HostRuntime) {
    let mut buffer = [0u8; ROOM];
    let _ = tell(&rt, &mut buffer[..FIRST]);
    let _ = tell(&rt, &mut buffer);
    let _ = tell(&rt, &mut buffer);
}
