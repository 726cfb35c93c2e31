// Runs what a host may call on examples, a line of standard input for each. The file `stdout` is worked out from document 01 by another
// program. A line is
//     KIND PROBLEM TEXT LABEL
// where PROBLEM and TEXT are bytes, two upper-case digits for each, and one space stands between the parts. KIND is
//     S   every solution of the problem, as document 01's program `readings` prints them, below the label; TEXT is empty
//     C   the text is checked
//     N   two nodes of the problem's expressions are compared: TEXT is their numbers (see `pair`)
//     A   all nodes of the problem's expressions are numbered (see `numbered`); TEXT is empty
// Any other line is printed as a bad line.
#![tactic(auto)]

mod line;
mod numbered;
mod pair;

use line::show;
use lines::input::show_all;

// The input may have one byte fewer, so that none is cut off.
const ROOM: usize = 262144;

fn main(rt: HostRuntime) {
    let mut input = [0u8; ROOM];
    show_all(&rt, &mut input, |line| show(&rt, line));
}
