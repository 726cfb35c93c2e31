// Runs what a host may call on examples, a line of standard input for each. The file `stdout` is worked out from document 01 by another
// program. A line is
//     KIND PROBLEM TEXT LABEL
// where PROBLEM and TEXT are bytes, two upper-case digits for each, and one space stands between the parts. KIND is
//     W   a row is written: TEXT is a place and the length of the buffer (see `written`)
//     L   an open search is lent to call after call: TEXT is what each call is handed (see `held::open`)
//     H   the same, where it is handed over and back by value
//     R   a list of calls, made by one function: TEXT is their allowances (see `held::list`)
// Any other line is printed as a bad line.
#![tactic(auto)]

mod line;
mod written;

use line::show;
use lines::input::show_all;

// The input may have one byte fewer, so that none is cut off.
const ROOM: usize = 262144;

fn main(rt: HostRuntime) {
    let mut input = [0u8; ROOM];
    show_all(&rt, &mut input, |line| show(&rt, line));
}
