// The checks after reading, in document 01's order: 13, then, unless a letter is used both ways, the walk, and 14 if all shapes agree.
ghost use Rattle.std.specs.Prelude.{◌≡◌, ◌≤◌, length};
ghost use Rattle.meaning.specs.Limits.{metavariable_count};
ghost use Rattle.tokens.specs.Token.{Table};
ghost use Rattle.metavariables.specs.Survey.{count};
ghost use Rattle.faces.specs.First.{firsts_of, any_large};
ghost use Rattle.faces.specs.Check.{CheckedBy};

use crate::first::{any_large, first_faces};
use crate::walk::walk;
use metavariables::{MAX_FUNCTIONS, both_ways, function_count, survey};
use refusal::Refusal;

// Whether the first face of some function is over the limit (14).
fn over_limit(ps: &[u64], es: &[u64], faces: &[u64], functions: u32) -> bool
    requires { count metavariable_count functions ≤ 8 }
    ensures { result ≡ any_large es.now (firsts_of ps.now faces.now functions) }
{
    any_large(es, first_faces(ps, faces, functions))
}

// The tables of the patterns and of the expressions; the faces are recorded at the front of `out`. How many, or None where the problem is
// accepted and has no rows: a letter is used both ways, or a shape disagrees.
pub fn check(ps: &[u64], es: &[u64], out: &mut [u64]) -> Result<Option<usize>, Refusal>
    requires patterns { Table ps.now }
    requires expressions { Table es.now }
    requires room { length ps.now ≤ length out.old }
    ensures { CheckedBy ps.now es.now out.old out.new result }
{
    let found = survey(ps);
    let functions = found.functions;
    if function_count(functions) > MAX_FUNCTIONS {
        return Err(Refusal::TooManyFunctions);
    }
    if both_ways(functions, found.plain) {
        return Ok(None);
    }
    match walk(ps, es, out) {
        None => Ok(None),
        Some(n) => {
            if over_limit(ps, es, &out[..n], functions) {
                Err(Refusal::FaceTooLarge)
            } else {
                Ok(Some(n))
            }
        }
    }
}
