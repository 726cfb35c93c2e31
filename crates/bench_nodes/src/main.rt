// A benchmark of what no host sees. Standard input is one byte that says what to do, and a problem:
//     c   compares the first two parts of the application that is the first expression, a million times, and prints the number of pairs of
//         nodes compared each time
//     n   numbers the nodes of the expressions, 20,000 times, and prints how many different numbers there are
//     w   the same 500 times, for the worst problems
//     r   reads and checks the problem, 20,000 times, and prints how many nodes its expressions have
#![tactic(auto)]

ghost use Rattle.std.specs.Prelude.{◌<◌, length};
ghost use Rattle.table.specs.Whole.{table_room};
ghost use Rattle.numbers.specs.Numbering.{Numerable, Rooms};
ghost use Rattle.comparing.specs.Comparing.{Nested};

use accept::accept_lent;
use comparing::compare;
use numbers::make::number;
use table::TABLE_ROOM;
use tokens::token::size;

// The descriptor of standard output.
const STDOUT: i32 = 1;

const COMPARISONS: usize = 1000000;

const TIMES: usize = 20000;

const WORST_TIMES: usize = 500;

// The sum of what is compared, so that each time counts. Which of the two comes first hangs on the sum so far, so that no call can be made
// once for all times.
fn compare_again(es: &[u64], first: usize, second: usize) -> usize
    requires nested { Nested es.now }
    requires first_in { first < length es.now }
    requires second_in { second < length es.now }
{
    let mut sum = 0usize;
    for _ in 0..COMPARISONS {
        let compared = if sum % 2 == 0 {
            compare(es, first, second)
        } else {
            compare(es, second, first)
        };
        sum = sum.wrapping_add(compared.pairs);
    }
    sum
}

// Of the nodes of a problem's expressions.
fn measure(es: &[u64]) -> usize
    requires { Nested es.now }
{
    if es.len() < 2 {
        return 0;
    }
    let second = 1 + size(es[1]) as usize;
    if second < es.len() {
        compare_again(es, 1, second)
    } else {
        0
    }
}

fn pairs_of(problem: &[u8]) -> usize {
    let mut patterns = [0u64; TABLE_ROOM];
    let mut expressions = [0u64; TABLE_ROOM];
    let mut faces = [0u64; TABLE_ROOM];
    match accept_lent(problem, &mut patterns, &mut expressions, &mut faces) {
        Err(_) => 0,
        Ok(standing) => measure(standing.expressions),
    }
}

// How many different numbers there are: each counts where it stands first.
fn different(ns: &[u64]) -> usize {
    ns.iter()
        .enumerate()
        .filter(|(k, n)| !ns[..*k].contains(n))
        .count()
}

fn number_again(es: &[u64], times: usize, ns: &mut [u64], links: &mut [u64])
    requires { Numerable es.now × Rooms es.now ns.old links.old }
{
    for _ in 0..times {
        number(es, ns, links);
    }
}

// Of the nodes of a problem's expressions.
fn measure_numbers(es: &[u64], times: usize) -> usize
    requires numerable { Numerable es.now }
    requires room { length es.now < table_room }
{
    let mut ns = [0u64; TABLE_ROOM];
    let mut links = [0u64; TABLE_ROOM];
    number_again(es, times, &mut ns, &mut links);
    different(&ns[..es.len()])
}

fn numbers_of(problem: &[u8], times: usize) -> usize {
    let mut patterns = [0u64; TABLE_ROOM];
    let mut expressions = [0u64; TABLE_ROOM];
    let mut faces = [0u64; TABLE_ROOM];
    match accept_lent(problem, &mut patterns, &mut expressions, &mut faces) {
        Err(_) => 0,
        Ok(standing) => measure_numbers(standing.expressions, times),
    }
}

fn read_again(problem: &[u8]) -> usize {
    let mut patterns = [0u64; TABLE_ROOM];
    let mut expressions = [0u64; TABLE_ROOM];
    let mut faces = [0u64; TABLE_ROOM];
    let mut nodes = 0;
    for _ in 0..TIMES {
        nodes = match accept_lent(problem, &mut patterns, &mut expressions, &mut faces) {
            Err(_) => 0,
            Ok(standing) => standing.expressions.len(),
        };
    }
    nodes
}

fn measured(what: u8, problem: &[u8]) -> usize {
    match what {
        b'c' => pairs_of(problem) / COMPARISONS,
        b'n' => numbers_of(problem, TIMES),
        b'w' => numbers_of(problem, WORST_TIMES),
        b'r' => read_again(problem),
        _ => 0,
    }
}

fn main() {
    let mut input = io::large_buffer();
    let n = io::read_full(0, &mut input);
    if n == 0 {
        return;
    }
    let answer = measured(input[0], &input[1..n]);
    io::print_decimal(STDOUT, answer as u64);
    io::write_all(STDOUT, b"\n");
}
