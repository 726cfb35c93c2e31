// One line of the input: its kind, its problem and its text out of their digits, and its label.
use crate::numbered::show_numbered;
use crate::pair::show_pair;
use checking::{Verdict, check};
use lines::input::with_parts;
use lines::output::bad;
use printing::print_readings;
use std::io::Result;

fn show_checked(rt: &impl Print, label: &[u8], problem: &[u8], text: &[u8]) -> Result<()> {
    rt.write_all(label)?;
    match check(problem, text) {
        Err(refusal) => println!(rt; ": refused {}", refusal.number()),
        Ok(Verdict::Yes) => println!(rt; ": yes"),
        Ok(Verdict::No) => println!(rt; ": no"),
    }
}

fn show_readings(rt: &impl Print, label: &[u8], problem: &[u8], text: &[u8]) -> Result<()> {
    if !text.is_empty() {
        return bad(rt, label);
    }
    rt.write_all(label)?;
    println!(rt; "")?;
    print_readings(rt, problem)
}

pub fn show(rt: &impl Print, line: &[u8]) -> Result<()> {
    with_parts(rt, line, |kind, label, problem, text| match kind {
        b'S' => show_readings(rt, label, problem, text),
        b'C' => show_checked(rt, label, problem, text),
        b'N' => show_pair(rt, label, problem, text),
        b'A' => show_numbered(rt, label, problem, text),
        _ => bad(rt, label),
    })
}
