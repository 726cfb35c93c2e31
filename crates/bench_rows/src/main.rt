// A benchmark of what no host sees. Standard input is one byte that says what to do, and a problem:
//     s   steps through the rows of the problem, as far as MOST, and prints how many there are
//     p   prepares the problem, 20,000 times, and prints how many functions its rows choose for
// The problem of the test is one function against an application of 19 equal symbols. Its choices are the empty one, the application, and
// every set of symbols that is not empty: 2^19 + 1 rows.
#![tactic(auto)]

use prepare::prepare_lent;
use refusal::Refusal;
use rows::{Functions, begin_again, last_function, stepping};
use table::TABLE_ROOM;

// The descriptor of standard output.
const STDOUT: i32 = 1;

// More than there are rows in what is measured.
const MOST: u64 = 1000000;

const TIMES: usize = 20000;

// How many rows there are.
fn count(functions: &Functions) -> u64 {
    // Lent for the stepping.
    let first = functions.first_row();
    let firsts = functions.firsts;
    let last = last_function(firsts);
    let mut reached = first;
    for n in 1..MOST {
        let mut k = firsts.count;
        // As in `seeking::Fixed::seek`.
        if reached[last].is_empty() {
            k = stepping(firsts, reached);
            if k == 0 {
                return n;
            }
            reached = begin_again(firsts, first, k, reached);
        }
        reached[k - 1] = functions.next_of(k - 1, reached[k - 1]);
    }
    MOST
}

fn rows_of(problem: &[u8]) -> Result<u64, Refusal> {
    let mut ps = [0u64; TABLE_ROOM];
    let mut es = [0u64; TABLE_ROOM];
    let mut ns = [0u64; TABLE_ROOM];
    let mut fs = [0u64; TABLE_ROOM];
    let prepared = prepare_lent(problem, &mut ps, &mut es, &mut ns, &mut fs)?;
    Ok(match prepared.functions {
        Some(functions) => count(&functions),
        None => 0,
    })
}

// A refused problem has no functions, and is prepared as often.
fn prepare_again(problem: &[u8]) -> usize {
    let mut ps = [0u64; TABLE_ROOM];
    let mut es = [0u64; TABLE_ROOM];
    let mut ns = [0u64; TABLE_ROOM];
    let mut fs = [0u64; TABLE_ROOM];
    let mut functions = 0;
    for _ in 0..TIMES {
        if let Ok(prepared) = prepare_lent(problem, &mut ps, &mut es, &mut ns, &mut fs) {
            functions = prepared.tables.firsts.count;
        }
    }
    functions
}

fn print(n: u64, what: &[u8]) {
    io::print_decimal(STDOUT, n);
    io::write_all(STDOUT, what);
}

fn main() {
    let mut input = io::large_buffer();
    let n = io::read_full(0, &mut input);
    if n == 0 {
        return;
    }
    match input[0] {
        // s, p
        115 => print(rows_of(&input[1..n]).unwrap_or(0), b" rows\n"),
        112 => print(prepare_again(&input[1..n]) as u64, b" functions\n"),
        _ => (),
    }
}
