// The bytes of a row's text: how many they are, and how they are written.
ghost use Rattle.std.specs.Prelude.{[], ◌∷◌, ◌≤◌, length};
ghost use Rattle.masks.specs.Sets.{mask};
ghost use Rattle.meaning.specs.Field.{field};
ghost use Rattle.copying.specs.Fixed.{Wrote};
ghost use Rattle.composing.specs.Composing.{EntryThere, EntryMeasured, Writable, TextMeasured, CopyRoom, CopyWritten};
ghost use Rattle.composing.specs.Composing.{EntryRoom, EntryWritten, TextRoom, FieldsWritten};

use crate::entry::{Entry, Plan, entry_of};
use copying::{copy, copy_length, term_length, write_head};
use masks::NodeSet;
use metavariables::METAVARIABLES;

// How many bytes the field of an entry has.
fn entry_length(es: &[u64], entry: Option<Entry>) -> usize
    requires { EntryThere es.now entry }
    ensures { EntryMeasured es.now entry result }
{
    match entry {
        None => 0,
        Some(Entry::Open) => 4,
        Some(Entry::Value(node)) => 4 + term_length(es, node),
        Some(Entry::Body(node, set)) => 4 + copy_length(es, node, set),
    }
}

pub fn text_length(es: &[u64], plan: Plan) -> usize
    requires { Writable es.now plan }
    ensures { TextMeasured es.now plan result }
{
    let mut n = 0;
    for m in 0..METAVARIABLES {
        n += entry_length(es, entry_of(plan, m));
    }
    n
}

// "11 (open: number, 1 byte)"
fn write_open(m: u8, out: &mut [u8]) -> usize
    requires { 4 ≤ length out.old }
    ensures { Wrote (field 11 (m ∷ [])) out.old out.new result }
{
    out[3] = m;
    write_head(11, 1, out);
    4
}

// A field with a number and a term: "8 (value: number, 1 byte, then an expression)", and 9 likewise. The term first, then its number and
// the head before it.
fn write_copied(tag: u8, m: u8, es: &[u64], node: usize, set: NodeSet, out: &mut [u8]) -> usize
    requires { CopyRoom es.now node (mask set) m tag (length out.old) }
    ensures { CopyWritten es.now node (mask set) m tag out.old out.new result }
{
    let n = copy(es, node, set, &mut out[4..]);
    out[3] = m;
    write_head(tag, n + 1, out);
    n + 4
}

fn write_entry(m: u8, es: &[u64], entry: Option<Entry>, out: &mut [u8]) -> usize
    requires { EntryRoom es.now m entry (length out.old) }
    ensures { EntryWritten es.now m entry out.old out.new result }
{
    match entry {
        None => 0,
        Some(Entry::Open) => write_open(m, out),
        Some(Entry::Value(node)) => write_copied(8, m, es, node, NodeSet::none(), out),
        Some(Entry::Body(node, set)) => write_copied(9, m, es, node, set, out),
    }
}

// The fields of the metavariables from m on, each into the part of the buffer after those before it. A loop, so that the stack does not
// grow with their number.
pub fn write_from(m: u32, es: &[u64], plan: Plan, out: &mut [u8]) -> usize
    requires { TextRoom es.now plan m (length out.old) }
    ensures { FieldsWritten es.now plan m out.old out.new result }
{
    let mut n = 0;
    for k in m..METAVARIABLES {
        n += write_entry(k as u8, es, entry_of(plan, k), &mut out[n..]);
    }
    n
}
