// Two token tables walked together, each from a node on.
#![tactic(auto)]

ghost use Rattle.std.specs.Prelude.{◌≡◌};
ghost use Rattle.lockstep.specs.Walk.{is_slot};
ghost use Rattle.lockstep.specs.Span.{Lent, Walked, span_walk};

use tokens::same::same_node;
use tokens::token::{size, tag};

// The nodes of the patterns that are walked, and the expressions' node that the first of them is across from; d and e are the
// binder depths from which the keys of the two are seen.
#[derive(Clone, Copy)]
pub struct Span {
    pub from: usize,
    pub to: usize,
    pub at: usize,
    pub d: u64,
    pub e: u64,
}

// Whether a token is a metavariable, a function application or a hole: the tags of an expression's nodes come before theirs.
fn is_slot(x: u64) -> bool
    ensures { result ≡ is_slot x }
{
    4 < tag(x)
}

// Records each face as pattern node + 65536 * expression node, in order, and answers how many there are, or None where a shape disagrees.
// A slot is passed with all its nodes, and so is what it faces; any other node has to have the key of what stands across.
pub fn walk_at(ps: &[u64], es: &[u64], span: Span, out: &mut [u64]) -> Option<usize>
    requires { Lent ps.now es.now out.old span }
    ensures { Walked (span_walk ps.now es.now span) out.old out.new result }
{
    let to = span.to;
    let d = span.d;
    let e = span.e;
    let mut i = span.from;
    let mut j = span.at;
    let mut n = 0;
    // A while: a step is a whole subterm on either side.
    while i < to {
        if j >= es.len() {
            return None;
        }
        let x = ps[i];
        let y = es[j];
        if is_slot(x) {
            out[n] = i as u64 + 65536 * (j as u64);
            n += 1;
            i += size(x) as usize;
            j += size(y) as usize;
        } else {
            if !same_node(d, x, e, y) {
                return None;
            }
            i += 1;
            j += 1;
        }
    }
    Some(n)
}
