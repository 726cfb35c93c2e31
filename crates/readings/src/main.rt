// Document 01's program: "reads a problem on standard input", and prints its solutions.
#![tactic(auto)]

mod input;

use input::read_input;
use printing::print_readings;

// One byte more than a problem may have, so that a longer input is refused (1) and no more of it is read.
const MOST: usize = 4097;

// The exit status says nothing: a list that cannot be written to its end is followed by no `end`, and by a line on standard error.
fn main(rt: HostRuntime) {
    let mut bytes = [0u8; MOST];
    let _ = match read_input(&mut rt.stdin(), &mut bytes) {
        Err(_) => eprintln!(rt; "readings: standard input cannot be read"),
        Ok(n) => match print_readings(&rt, &bytes[..n]) {
            Err(_) => eprintln!(rt; "readings: standard output cannot be written"),
            Ok(()) => Ok(()),
        },
    };
}
