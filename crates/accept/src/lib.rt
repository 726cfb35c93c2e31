// Reading and checking in one. "Every entry point that takes a problem makes all checks down to the faces first": it calls this.
#![tactic(auto)]

ghost use Rattle.std.specs.Prelude.{◌≤◌, length};
ghost use Rattle.meaning.specs.Accept.{accept};
ghost use Rattle.tokens.specs.Token.{Table};
ghost use Rattle.accept.specs.Acceptance.{Checks, Rooms, Accepts, AcceptsLent};

use faces::check::check;
use metavariables::{Occurring, survey};
use refusal::Refusal;

// An accepted problem, as it is lent: the tokens of its patterns and of its expressions, the sets of its metavariables, and its faces.
#[derive(Clone, Copy)]
pub struct Standing<'a> {
    pub patterns: &'a [u64],
    pub expressions: &'a [u64],
    pub occurring: Occurring,
    // None where the problem has no rows: a letter is used both ways, or a shape disagrees.
    pub faces: Option<&'a [u64]>,
}

// The same in tables that are lent: how many entries stand at the front of each.
#[derive(Clone, Copy)]
pub struct Filled {
    pub patterns: usize,
    pub expressions: usize,
    pub occurring: Occurring,
    pub faces: Option<usize>,
}

// The checks on the tables of a problem that is read.
fn checked(ps: &[u64], es: &[u64], faces: &mut [u64]) -> Result<Filled, Refusal>
    requires patterns { Table ps.now }
    requires expressions { Table es.now }
    requires room { length ps.now ≤ length faces.old }
    ensures { Checks ps.now es.now faces.old faces.new result }
{
    let recorded = check(ps, es, faces)?;
    Ok(Filled {
        patterns: ps.len(),
        expressions: es.len(),
        occurring: survey(ps),
        faces: recorded,
    })
}

// Any bytes: document 01's refusal, or the problem's tokens at the front of the two tables, with no entry after them changed, and its faces at
// the front of the third. After a refusal the tables may hold anything.
pub fn accept(
    problem: &[u8],
    ps: &mut [u64],
    es: &mut [u64],
    faces: &mut [u64],
) -> Result<Filled, Refusal>
    requires { Rooms ps.old es.old faces.old }
    ensures { Accepts (accept problem.now) ps.old ps.new es.old es.new
        faces.new result }
{
    let read = table::read(problem, ps, es)?;
    checked(&ps[..read.patterns], &es[..read.expressions], faces)
}

// The same, where the problem alone is asked for: document 01's refusal, or the accepted problem in slices of the tables. While these are lent
// no clause can say what the tables hold, as that of `accept` does.
pub fn accept_lent<'a>(
    problem: &[u8],
    ps: &'a mut [u64],
    es: &'a mut [u64],
    faces: &'a mut [u64],
) -> Result<Standing<'a>, Refusal>
    requires { Rooms ps.old es.old faces.old }
    ensures { AcceptsLent (accept problem.now) result }
{
    let filled = accept(problem, ps, es, faces)?;
    Ok(Standing {
        patterns: &ps[..filled.patterns],
        expressions: &es[..filled.expressions],
        occurring: filled.occurring,
        // No `map`: its closure would have to know that n entries are there.
        faces: match filled.faces {
            Some(n) => Some(&faces[..n]),
            None => None,
        },
    })
}
