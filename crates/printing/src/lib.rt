// What document 01's program `readings` prints, on standard output. `listing` makes the lines; here they are only written.
#![tactic(auto)]

use listing::{Listing, ROOM, next_line};
use std::io::Result;

// Nothing comes after a line that could not be written.
pub fn print_readings(rt: &impl Print, problem: &[u8]) -> Result<()> {
    let mut out = [0u8; ROOM];
    let mut next = Some(Listing::start(problem));
    while let Some(at) = next {
        let line = next_line(problem, at, &mut out);
        rt.write_all(&out[..line.length])?;
        next = line.then;
    }
    Ok(())
}
