// Copies terms out of the table of expressions as bytes: "Bodies and values are copied from the problem with its bound names, lengths made
// right inside out". The tail of the buffer is lent on to the inner terms' writer, then the head is written before what it wrote.
#![tactic(auto)]

ghost use Rattle.std.specs.Prelude.{◌≡◌, ◌<◌, ◌≤◌, ◌∷◌, ◌++◌, length, drop};
ghost use Rattle.masks.specs.Sets.{mask};
ghost use Rattle.meaning.specs.Field.{symbol_bytes, word};
ghost use Rattle.tokens.specs.Token.{payload_in};
ghost use Rattle.copying.specs.Fixed.{fixed_in, a_hole, HeadRoom, Wrote, NodeRoom, NodeWrote};
ghost use Rattle.copying.specs.Copied.{Copyable, Copied, TermCopyable, CopiedTerm, TermsCopyable, CopiedTerms};
ghost use Rattle.copying.specs.Measure.{Measurable, TermMeasured, BodyMeasurable, Measured};

use fields::limit::FIRST_WIDE;
use fields::number::Symbol;
use masks::NodeSet;
use tokens::token::{payload, size, tag};

// "hole, length 0"
const HOLE: u8 = 10;

// A field's head, before the content that stands there already.
pub fn write_head(tag: u8, length: usize, out: &mut [u8])
    requires { HeadRoom length out.old }
    ensures { out.new ≡ tag ∷ (word length ++ drop 3 out.old) }
{
    out[0] = tag;
    write_word(length as u16, &mut out[1..]);
}

// The number in two bytes, high byte first.
fn write_word(n: u16, out: &mut [u8])
    requires { 2 ≤ length out.old }
    ensures { out.new ≡ word n ++ drop 2 out.old }
{
    out[..2].copy_from_slice(&n.to_be_bytes());
}

// Two numbers in two bytes each.
fn write_words(first: u16, second: u16, out: &mut [u8])
    requires { 4 ≤ length out.old }
    ensures { out.new ≡ (word first ++ word second) ++ drop 4 out.old }
{
    write_word(first, out);
    write_word(second, &mut out[2..]);
}

// A symbol's number, in four bytes where two cannot say it.
fn write_symbol(x: Symbol, out: &mut [u8])
    requires { length (symbol_bytes x.0) ≤ length out.old }
    ensures { out.new ≡ symbol_bytes x.0 ++ drop (length (symbol_bytes x.0)) out.old }
{
    let n = x.0;
    if n < FIRST_WIDE {
        write_word(n as u16, out);
    } else {
        out[..4].copy_from_slice(&n.to_be_bytes());
    }
}

fn write_hole(out: &mut [u8]) -> usize
    requires { 3 ≤ length out.old }
    ensures { Wrote a_hole out.old out.new result }
{
    write_head(HOLE, 0, out);
    3
}

// The number of a symbol's token.
fn symbol(x: u64) -> Symbol
    ensures { result.0 ≡ payload_in x }
{
    Symbol(payload(x) as u32)
}

// How long the fixed part of a node's content is. An application has none.
fn fixed_length(x: u64) -> usize
    ensures { result ≡ length (fixed_in x) }
{
    match tag(x) {
        1 => symbol(x).width(),
        2 => 2,
        4 => 4,
        _ => 0,
    }
}

// The fixed part of a node's content.
fn write_fixed(x: u64, out: &mut [u8])
    requires { length (fixed_in x) ≤ length out.old }
    ensures { out.new ≡ fixed_in x ++ drop (length (fixed_in x)) out.old }
{
    match tag(x) {
        1 => write_symbol(symbol(x), out),
        2 => write_word((payload(x) % 65536) as u16, out),
        4 => {
            let load = payload(x);
            write_words((load % 65536) as u16, (load / 65536) as u16, out)
        }
        _ => {}
    }
}

// The head and the fixed part of a node, before n bytes of inner terms that stand there already.
fn write_node(x: u64, n: usize, out: &mut [u8]) -> usize
    requires { NodeRoom x n out.old }
    ensures { NodeWrote x n out.old out.new result }
{
    let fixed = fixed_length(x);
    write_head(tag(x) as u8, fixed + n, out);
    write_fixed(x, &mut out[3..]);
    3 + fixed + n
}

// The term at node `at`, which is the copied one, at node `from`, or stands below it.
#[cycle(copy_term_copy_terms)]
fn copy_term(es: &[u64], from: usize, set: NodeSet, at: usize, out: &mut [u8]) -> usize
    requires { TermCopyable es.now from (mask set) at (length out.old) }
    ensures { CopiedTerm es.now from (mask set) at out.old out.new result }
{
    if set.has(at - from) {
        return write_hole(out);
    }
    let x = es[at];
    let inner = 3 + fixed_length(x);
    let end = at + size(x) as usize;
    let n = copy_terms(es, from, set, at + 1, end, &mut out[inner..]);
    write_node(x, n, out)
}

// The terms from node `at` up to node `to`, each into the part of the buffer after those before it. A loop, so that the stack grows with
// the depth of a term and not with the number of its children.
#[cycle(copy_term_copy_terms)]
fn copy_terms(es: &[u64], from: usize, set: NodeSet, at: usize, to: usize, out: &mut [u8]) -> usize
    requires { TermsCopyable es.now from (mask set) at to (length out.old) }
    ensures { CopiedTerms es.now from (mask set) at to out.old out.new result }
{
    let mut next = at;
    let mut n = 0;
    // A step is a whole term.
    while next < to {
        n += copy_term(es, from, set, next, &mut out[n..]);
        next += size(es[next]) as usize;
    }
    n
}

// The term at a node with the marked nodes as holes.
pub fn copy(es: &[u64], node: usize, set: NodeSet, out: &mut [u8]) -> usize
    requires { Copyable es.now node (mask set) (length out.old) }
    ensures { Copied es.now node (mask set) out.old out.new result }
{
    copy_term(es, node, set, node, out)
}

// How many bytes the term at a node has.
pub fn term_length(es: &[u64], node: usize) -> usize
    requires { Measurable es.now node }
    ensures { TermMeasured es.now node result }
{
    let end = node + size(es[node]) as usize;
    let mut total = 0;
    for x in &es[node..end] {
        total += 3 + fixed_length(*x);
    }
    total
}

// How many bytes `copy` writes for a body. What its holes stand for has the same length at each, and a hole has 3 bytes: a body is its face
// less what one hole saves, as often as it has holes.
pub fn copy_length(es: &[u64], node: usize, set: NodeSet) -> usize
    requires { BodyMeasurable es.now node (mask set) }
    ensures { Measured es.now node (mask set) result }
{
    let whole = term_length(es, node);
    if set.is_empty() {
        return whole;
    }
    let hole = term_length(es, node + set.lowest());
    whole - set.holes() * (hole - 3)
}
