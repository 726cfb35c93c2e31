// Reads a problem: 1, then constraints to the end with 2, 3, 4, 11 and 7. Its patterns go into one table and its expressions into another.
ghost use Rattle.std.specs.Prelude.{length, ◌≤◌};
ghost use Rattle.meaning.specs.Limits.{max_constraints};
ghost use Rattle.meaning.specs.Read.{read_pair, read_constraints, read_problem};
ghost use Rattle.table.specs.Whole.{table_room, Spaces, TopDone, PairDone, ProblemDone};

use crate::answer::Read;
use crate::limit::{LARGEST_PROBLEM, MAX_CONSTRAINTS};
use fields::field::parts_of;
use refusal::Refusal;
use terms::term::{read_expression, read_pattern};

// A constraint's head: the length of its content, or 2, 3, 4, 11.
#[tactic(auto, unfolding(meaning::specs::Read::constraint_head))]
fn constraint_head(s: &[u8], left: usize) -> Result<usize, Refusal>
    ensures { TopDone left s.now result }
{
    let parts = parts_of(s)?;
    if parts.tag != 7 {
        Err(Refusal::TagOutOfPlace)
    } else if left == 0 {
        Err(Refusal::TooManyConstraints)
    } else {
        Ok(parts.length)
    }
}

// The nodes of a constraint's two terms.
#[derive(Clone, Copy)]
struct Pair {
    pattern: usize,
    expression: usize,
}

// Both terms of a constraint are read when the expression takes all that is due.
fn read_pair(s: &[u8], patterns: &mut [u64], expressions: &mut [u64]) -> Result<Pair, Refusal>
    requires { Spaces (length s.now) (length patterns.old) (length expressions.old) }
    ensures { PairDone (read_pair s.now) patterns.old patterns.new expressions.old
        expressions.new result }
{
    let pattern = read_pattern(s, patterns)?;
    let rest = &s[pattern.bytes..];
    let expression = read_expression(rest, expressions)?;
    if expression.bytes == rest.len() {
        Ok(Pair {
            pattern: pattern.nodes,
            expression: expression.nodes,
        })
    } else {
        Err(Refusal::InnerFields)
    }
}

// The constraints to the end of the bytes, or to the first that is refused, each into the parts of the tables after those before it. A
// loop, so that the stack does not grow with their number; a `while`, since a constraint takes as many bytes as it says.
fn read_constraints(
    s: &[u8],
    patterns: &mut [u64],
    expressions: &mut [u64],
) -> Result<Read, Refusal>
    requires { Spaces (length s.now) (length patterns.old) (length expressions.old) }
    ensures { ProblemDone (read_constraints max_constraints s.now) patterns.old patterns.new
        expressions.old expressions.new result }
{
    // The entries that are used in each table, the constraints that are read, and the bytes that they take.
    let mut p = 0;
    let mut e = 0;
    let mut count = 0;
    let mut at = 0;
    while at < s.len() {
        let length = constraint_head(&s[at..], MAX_CONSTRAINTS - count)?;
        let start = at + 3;
        let end = start + length;
        let pair = read_pair(&s[start..end], &mut patterns[p..], &mut expressions[e..])?;
        p += pair.pattern;
        e += pair.expression;
        count += 1;
        at = end;
    }
    Ok(Read {
        patterns: p,
        expressions: e,
        constraints: count,
    })
}

// Any bytes: document 01's refusal, or the problem's tokens at the front of the two tables.
pub fn read(bytes: &[u8], patterns: &mut [u64], expressions: &mut [u64]) -> Result<Read, Refusal>
    requires { (table_room ≤ length patterns.old) × (table_room ≤ length expressions.old) }
    ensures { ProblemDone (read_problem bytes.now) patterns.old patterns.new
        expressions.old expressions.new result }
{
    if LARGEST_PROBLEM < bytes.len() {
        return Err(Refusal::ProblemTooLong);
    }
    read_constraints(bytes, patterns, expressions)
}
