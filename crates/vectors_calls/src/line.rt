// One line of the input: its kind, its problem and its text out of their digits, and its label.
use crate::written::show_written;
use held::list::show_list;
use held::open::{lend, show_held};
use lines::input::with_parts;
use lines::output::bad;
use matcher::search_owned;
use std::io::Result;

pub fn show(rt: &impl Print, line: &[u8]) -> Result<()> {
    with_parts(rt, line, |kind, label, problem, text| match kind {
        b'W' => show_written(rt, label, problem, text),
        b'L' => show_held(rt, lend, label, problem, text),
        b'H' => show_held(rt, search_owned, label, problem, text),
        b'R' => show_list(rt, label, problem, text),
        _ => bad(rt, label),
    })
}
