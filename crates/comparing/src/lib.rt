// Two nodes of a problem's expressions compared: yes or no, and how many pairs of nodes that took (T-02). And the numbers of all its nodes,
// two of which are the same exactly when that comparison says yes (T-08).
#![tactic(auto)]

ghost use Rattle.std.specs.Prelude.{◌<◌, ◌≤◌, length};
ghost use Rattle.meaning.specs.Accept.{accept};
ghost use Rattle.table.specs.Whole.{table_room};
ghost use Rattle.comparing.specs.Comparing.{Nested, Shared, ComparedIn, Present, Compares};
ghost use Rattle.comparing.specs.NumberedNodes.{NumbersNodes};

use accept::accept_lent;
use numbers::make::number;
use refusal::Refusal;
use table::TABLE_ROOM;
use tokens::same::{Compared, compare_across};
use tokens::token::{depth, size};

// How many binders lie above both nodes, where a does not come after b: the least depth from a to b. From subterm to subterm, since none of
// its nodes is less deep than its root, and no further than to one that lies below no binder.
fn shared_from(t: &[u64], a: usize, b: usize) -> u64
    requires nested { Nested t.now }
    requires in_order { a ≤ b }
    requires second_in { b < length t.now }
    ensures { Shared t.now a b result }
{
    let x = t[a];
    let mut shared = depth(x);
    let mut next = a + size(x) as usize;
    // A while: each step is a whole subterm.
    while next <= b {
        if shared == 0 {
            return 0;
        }
        let y = t[next];
        let d = depth(y);
        shared = shared.min(d);
        next += size(y) as usize;
    }
    shared
}

// The same of any two nodes.
fn shared_depth(t: &[u64], a: usize, b: usize) -> u64
    requires nested { Nested t.now }
    requires first_in { a < length t.now }
    requires second_in { b < length t.now }
    ensures { Shared t.now a b result }
{
    if a < b {
        shared_from(t, a, b)
    } else {
        shared_from(t, b, a)
    }
}

// Any two nodes of one table compared.
pub fn compare(t: &[u64], a: usize, b: usize) -> Compared
    requires nested { Nested t.now }
    requires first_in { a < length t.now }
    requires second_in { b < length t.now }
    ensures { ComparedIn t.now a b result }
{
    compare_across(t, a, t, b, shared_depth(t, a, b))
}

// The same of any two numbers, if both are nodes of the table.
fn compare_present(t: &[u64], a: usize, b: usize) -> Option<Compared>
    requires { Nested t.now }
    ensures { Present t.now a b result }
{
    if a < t.len() && b < t.len() {
        Some(compare(t, a, b))
    } else {
        None
    }
}

// Any bytes and any two numbers: document 01's refusal, or the two nodes of the problem's expressions compared, if there are both.
pub fn compare_in(problem: &[u8], a: usize, b: usize) -> Result<Option<Compared>, Refusal>
    ensures { Compares (accept problem.now) a b result }
{
    let mut patterns = [0u64; TABLE_ROOM];
    let mut expressions = [0u64; TABLE_ROOM];
    let mut faces = [0u64; TABLE_ROOM];
    let standing = accept_lent(problem, &mut patterns, &mut expressions, &mut faces)?;
    Ok(compare_present(standing.expressions, a, b))
}

// Any bytes: document 01's refusal, or a number for each node of the problem's expressions, at the front of `ns`, and how many these are.
pub fn number_in(problem: &[u8], ns: &mut [u64]) -> Result<usize, Refusal>
    requires { table_room ≤ length ns.old }
    ensures { NumbersNodes (accept problem.now) ns.new result }
{
    let mut patterns = [0u64; TABLE_ROOM];
    let mut expressions = [0u64; TABLE_ROOM];
    let mut faces = [0u64; TABLE_ROOM];
    let mut links = [0u64; TABLE_ROOM];
    let lent = accept_lent(problem, &mut patterns, &mut expressions, &mut faces)?;
    number(lent.expressions, ns, &mut links);
    Ok(lent.expressions.len())
}
