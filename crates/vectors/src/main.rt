// Reads inputs from standard input, a line for each, and prints the label of each with what the matcher answers. The file `stdout` is
// worked out by hand from document 01. A line is
//     KIND HEX LABEL
// where KIND is P for a problem, and T, E, B for a pattern, an expression, a body by itself; HEX is the input's bytes, two upper-case
// digits for each; and one space stands between the parts. Any other line is printed as a bad one.
#![tactic(auto)]

mod answer;
mod line;

use line::show;
use lines::input::show_all;

// The input may have one byte fewer, so that none is cut off.
const ROOM: usize = 65536;

fn main(rt: HostRuntime) {
    let mut input = [0u8; ROOM];
    show_all(&rt, &mut input, |line| show(&rt, line));
}
