// The problem with the longest list for a given number of nodes (T-13), written into a buffer: (P(X), e), where e is a symbol, or an
// application of equal symbols.
#![tactic(auto)]

ghost use Rattle.std.specs.Prelude.{◌≡◌, ◌≤◌, length};
ghost use Rattle.meaning.specs.Field.{encode};
ghost use Rattle.meaning.specs.Longest.{is_outside, longest_bytes, over, symbols};
ghost use Rattle.longest.specs.Writing.{Nodes, ProblemRoom, Room, WritesLongest, expression_bytes, terms_bytes};

use copying::write_head;
use masks::NodeSet;
use refusal::Refusal;

const APPLICATION: u8 = 3;

const CONSTRAINT: u8 = 7;

// How many bytes a field's head has, the pattern P(X), and a symbol.
const HEAD: usize = 3;

const PATTERN: usize = 8;

const SYMBOL: usize = 5;

// Bytes at the buffer's front.
fn put(bytes: &[u8], out: &mut [u8])
    requires { length bytes.now ≤ length out.old }
    ensures { out.new ≡ over bytes.now out.old }
{
    out[..bytes.len()].copy_from_slice(bytes);
}

// So many times symbol 0: 01 0002 0000.
fn write_symbols(m: usize, out: &mut [u8])
    requires { length (encode (symbols m)) ≤ length out.old }
    ensures { out.new ≡ over (encode (symbols m)) out.old }
{
    for i in 0..m {
        put(b"\x01\x00\x02\x00\x00", &mut out[SYMBOL * i..]);
    }
}

// "for n = 1 a symbol, else an application of n - 1 equal symbols": the symbols, and then the head before them.
fn write_expression(n: usize, out: &mut [u8])
    requires { Room n (length (expression_bytes n)) out.old }
    ensures { out.new ≡ over (expression_bytes n) out.old }
{
    if n == 1 {
        write_symbols(1, out);
    } else {
        write_symbols(n - 1, &mut out[HEAD..]);
        write_head(APPLICATION, SYMBOL * (n - 1), out);
    }
}

// The constraint's two terms: P(X), which is 06 0005 00 and in it 05 0001 01, before the expression.
fn write_terms(n: usize, out: &mut [u8])
    requires { Room n (length (terms_bytes n)) out.old }
    ensures { out.new ≡ over (terms_bytes n) out.old }
{
    write_expression(n, &mut out[PATTERN..]);
    put(b"\x06\x00\x05\x00\x05\x00\x01\x01", out);
}

// The constraint, which has so many bytes: its terms, and then the head before them.
fn write_problem(n: usize, length: usize, out: &mut [u8])
    requires { ProblemRoom n length out.old }
    ensures { out.new ≡ over (longest_bytes n) out.old }
{
    write_terms(n, &mut out[HEAD..]);
    write_head(CONSTRAINT, length - HEAD, out);
}

// How many bytes the problem for n nodes has. It is asked before n is looked at, so that n may be any number; outside 1 to 256 the answer
// means nothing.
fn problem_length(n: u32) -> usize
    ensures { Nodes n → result ≡ length (longest_bytes n) }
{
    if n == 1 {
        HEAD + PATTERN + SYMBOL
    } else {
        HEAD + PATTERN + HEAD + SYMBOL * n as usize - SYMBOL
    }
}

// "28 when n is outside 1 to 256"
fn is_outside(n: u32) -> bool
    ensures { result ≡ is_outside n }
{
    !(1..=NodeSet::ROOM).contains(&(n as usize))
}

// The problem for n nodes at the buffer's front: no later byte changes, and on a refusal none does.
pub fn write_longest(n: u32, out: &mut [u8]) -> Result<usize, Refusal>
    ensures { WritesLongest n out.old out.new result }
{
    let length = problem_length(n);
    if is_outside(n) {
        return Err(Refusal::NodesOutOfRange);
    }
    if out.len() < length {
        return Err(Refusal::ProblemBufferTooShort);
    }
    write_problem(n as usize, length, out);
    Ok(length)
}
