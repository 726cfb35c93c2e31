// One row written into a buffer, and how the buffer stands after it. What is asked for has 259 bytes: a place, as a node set of four words
// of 8 bytes for each of 8 functions and a byte that is 1 past the last and else 0; and the buffer's length, 2 bytes. Before, its bytes are
// all 170.
ghost use Rattle.std.specs.Prelude.{◌≤◌};

use lines::output::{bad, print_bytes};
use masks::NodeSet;
use places::Place;
use std::io::Result;
use writing::write::write;

const WORD_BYTES: usize = 8;

const SET_BYTES: usize = NodeSet::WORDS * WORD_BYTES;

const ROOM: usize = 8192;

const FILL: u8 = 170;

fn set_of(bytes: &[u8; SET_BYTES]) -> NodeSet {
    let mut set = NodeSet::none();
    for (word, bytes) in set.words.iter_mut().zip(bytes.as_chunks::<WORD_BYTES>().0) {
        *word = u64::from_be_bytes(*bytes);
    }
    set
}

fn place_of(bytes: &[[u8; SET_BYTES]], past: bool) -> Place {
    let mut sets = [NodeSet::none(); Place::MAX_FUNCTIONS];
    for (set, bytes) in sets.iter_mut().zip(bytes) {
        *set = set_of(bytes);
    }
    Place { sets, past }
}

// Whether a byte from there on is not as it was.
fn print_changed(rt: &impl Print, buffer: &[u8], from: usize) -> Result<()> {
    if buffer.iter().skip(from).any(|byte| *byte != FILL) {
        print!(rt; ", buffer changed")?;
    }
    println!(rt; "")
}

// The text and two bytes after it, of as many as there are; or the refusal.
fn show_row(rt: &impl Print, problem: &[u8], row: Place, room: usize) -> Result<()>
    requires { room ≤ 8192 }
{
    let mut space = [FILL; ROOM];
    let buffer = &mut space[..room];
    match write(problem, row, buffer) {
        Ok(n) => {
            print!(rt; ": wrote {n}, ")?;
            print_bytes(rt, &buffer[..room.min(n.saturating_add(2))])?;
            print_changed(rt, buffer, n)
        }
        Err(refusal) => {
            print!(rt; ": refused {}", refusal.number())?;
            print_changed(rt, buffer, 0)
        }
    }
}

pub fn show_written(rt: &impl Print, label: &[u8], problem: &[u8], asked: &[u8]) -> Result<()> {
    let (sets, rest) = asked.as_chunks::<SET_BYTES>();
    let [past @ 0..=1, high, low] = rest else {
        return bad(rt, label);
    };
    let room = usize::from(u16::from_be_bytes([*high, *low]));
    if sets.len() != Place::MAX_FUNCTIONS || ROOM < room {
        return bad(rt, label);
    }
    rt.write_all(label)?;
    show_row(rt, problem, place_of(sets, *past == 1), room)
}
