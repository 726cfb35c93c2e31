// Pattern and expression walked together from the top.
ghost use Rattle.std.specs.Prelude.{◌≤◌, length};
ghost use Rattle.tokens.specs.Token.{Table};
ghost use Rattle.lockstep.specs.Span.{Walked};
ghost use Rattle.faces.specs.FlatWalk.{flat_walk};

use lockstep::{Span, walk_at};

// The faces of a problem's two tables are recorded at the front of `out`.
pub fn walk(ps: &[u64], es: &[u64], out: &mut [u64]) -> Option<usize>
    requires patterns { Table ps.now }
    requires expressions { Table es.now }
    requires room { length ps.now ≤ length out.old }
    ensures { Walked (flat_walk ps.now es.now) out.old out.new result }
{
    let whole = Span {
        from: 0,
        to: ps.len(),
        at: 0,
        d: 0,
        e: 0,
    };
    walk_at(ps, es, whole, out)
}
