// One line of the input: its kind, its bytes out of their digits, and its label.
ghost use Rattle.std.specs.Prelude.{◌≤◌, length};

use crate::answer::{show_problem, show_term};
use lines::input::{letter_of, read_part};
use lines::output::bad;
use std::io::Result;
use terms::term::{read_body, read_expression, read_pattern};

// The bytes that a line may have.
const MOST: usize = 8192;

fn show_input(rt: &impl Print, kind: u8, label: &[u8], bytes: &[u8]) -> Result<()>
    requires { length bytes.now ≤ 8192 }
{
    match kind {
        b'P' => show_problem(rt, label, bytes),
        b'T' => show_term(rt, label, bytes, read_pattern),
        b'E' => show_term(rt, label, bytes, read_expression),
        b'B' => show_term(rt, label, bytes, read_body),
        _ => bad(rt, label),
    }
}

pub fn show(rt: &impl Print, line: &[u8]) -> Result<()> {
    let mut bytes = [0u8; MOST];
    let Some((kind, rest)) = letter_of(line) else {
        return bad(rt, line);
    };
    match read_part(rest, &mut bytes) {
        Some((n, label)) => show_input(rt, kind, label, &bytes[..n]),
        None => bad(rt, line),
    }
}
