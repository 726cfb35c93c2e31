// One line of the output: the label of an input, and what the matcher answers.
ghost use Rattle.std.specs.Prelude.{◌≤◌, length};
ghost use Rattle.terms.specs.Reading.{Space};

use accept::accept_lent;
use refusal::Refusal;
use std::io::Result as Written;
use table::TABLE_ROOM;
use terms::term::Took;

// The nodes that 8,192 bytes may have.
const TERM_ROOM: usize = 2731;

fn print_refused(rt: &impl Print, refusal: Refusal) -> Written<()> {
    println!(rt; ": refused {}", refusal.number())
}

pub fn show_problem(rt: &impl Print, label: &[u8], bytes: &[u8]) -> Written<()> {
    let mut patterns = [0u64; TABLE_ROOM];
    let mut expressions = [0u64; TABLE_ROOM];
    let mut faces = [0u64; TABLE_ROOM];
    rt.write_all(label)?;
    match accept_lent(bytes, &mut patterns, &mut expressions, &mut faces) {
        Err(refusal) => print_refused(rt, refusal),
        Ok(a) => {
            let rows = if a.faces.is_some() { "rows" } else { "no rows" };
            println!(rt;
                ": accepted, nodes {} and {}, {rows}",
                a.patterns.len(),
                a.expressions.len()
            )
        }
    }
}

// A term by itself, in the place that the reader is for.
pub fn show_term<F: Fn(&[u8], &mut [u64]) -> Result<Took, Refusal>>(
    rt: &impl Print,
    label: &[u8],
    bytes: &[u8],
    read: F,
) -> Written<()>
    requires few { length bytes.now ≤ 8192 }
    requires reads { (s : _) (out : _) → Space (length s.now) (length out.now) → F.pre read s out }
{
    let mut room = [0u64; TERM_ROOM];
    rt.write_all(label)?;
    match read(bytes, &mut room) {
        Err(refusal) => print_refused(rt, refusal),
        Ok(took) => println!(rt; ": read, bytes {}, nodes {}", took.bytes, took.nodes),
    }
}
