// Where the values of metavariables are copied from: one demand after the other, each kept or compared with the first.
#![tactic(auto)]

ghost use Rattle.std.specs.Prelude.{[], ◌∷◌};
ghost use Rattle.std.specs.Bool.{then_some};
ghost use Rattle.meaning.specs.Basics.{All};
ghost use Rattle.numbers.specs.Tests.{told};
ghost use Rattle.sources.specs.Demand.{demand_at, demands_in, kept_after};
ghost use Rattle.sources.specs.Kept.{Kept, Askable, Demandable, Answers};

use metavariables::METAVARIABLES;
use numbers::ask::{closed, same};
use tokens::token::{payload, tag};

// For each metavariable the node that its value is copied from, or None where nothing demands one.
#[derive(Clone, Copy)]
pub struct Sources {
    pub nodes: [Option<usize>; METAVARIABLES as usize],
}

// One demand more, kept where the others are: the first of a metavariable must be closed and is kept, a later one must be the same as the
// first. Where it is not, the nodes are of no use.
#[tactic(auto, using(crate::proofs::KeptLaws::answers_demand))]
pub fn demanded(ns: &[u64], sources: &mut Sources, m: usize, node: usize) -> bool
    requires { Kept ns.now sources.old.nodes × Askable ns.now (m, node) }
    ensures { Answers (kept_after (told ns.now) sources.old.nodes ((m, node) ∷ [])) (then_some result sources.new) }
{
    match sources.nodes[m] {
        Some(first) => same(ns, first, node),
        None => {
            sources.nodes[m] = Some(node);
            closed(ns, node)
        }
    }
}

// The demand that one recorded face makes, where it is that of a metavariable alone.
#[tactic(auto, using(crate::proofs::KeptLaws::facing))]
fn demanded_at(patterns: &[u64], ns: &[u64], face: u64, sources: &mut Sources) -> bool
    requires { Kept ns.now sources.old.nodes × Demandable patterns.now ns.now face }
    ensures { Answers (kept_after (told ns.now) sources.old.nodes (demand_at patterns.now face)) (then_some result sources.new) }
{
    let x = patterns[(face % 65536) as usize];
    if tag(x) != 5 {
        return true;
    }
    demanded(ns, sources, payload(x) as usize, (face / 65536) as usize)
}

// The demands of all recorded faces in order, until one disagrees.
#[tactic(auto, using(crate::proofs::KeptLaws::going))]
pub fn all_demanded(patterns: &[u64], ns: &[u64], faces: &[u64], sources: &mut Sources) -> bool
    requires { Kept ns.now sources.old.nodes × All (Demandable patterns.now ns.now) faces.now }
    ensures { Answers (kept_after (told ns.now) sources.old.nodes (demands_in patterns.now faces.now)) (then_some result sources.new) }
{
    for face in faces {
        if !demanded_at(patterns, ns, *face, sources) {
            return false;
        }
    }
    true
}
