// One function with its set of nodes by itself: whether the body that the set makes of its face is closed, and whether it suits what an
// application faces. Everything is looked up in the token table of the expressions, except what stands across a hole: there the numbers of
// the nodes are asked. What the answers mean is proofs/BodyMeaning and proofs/SuitsMeaning.
#![tactic(auto)]

ghost use Rattle.std.specs.Prelude.{◌≡◌, ◌<◌, length};
ghost use Rattle.masks.specs.Sets.{mask};
ghost use Rattle.tokens.specs.Token.{Table};
ghost use Rattle.tokens.specs.Key.{Inside};
ghost use Rattle.numbers.specs.Tests.{told};
ghost use Rattle.bodies.specs.BodyClosed.{body_closed_at};
ghost use Rattle.bodies.specs.Suits.{hole_fits, suits_at, Nested};

use masks::NodeSet;
use numbers::ask::Nodes;
use tokens::same::{reaches, same_node};
use tokens::token::{depth, size};

// Whether the body that the set makes of the face at a node uses no binder above the face. What stands below a hole is passed.
#[tactic(auto, using(crate::proofs::ClosedLaws::closing))]
pub fn body_closed(tokens: &[u64], face: usize, set: NodeSet) -> bool
    requires table { Table tokens.now }
    requires inside { Inside tokens.now face }
    ensures { result ≡ body_closed_at tokens.now face (mask set) }
{
    let root = tokens[face];
    let n = size(root) as usize;
    let d = depth(root);
    let mut i = 0;
    // A while: below a hole a step is a whole subterm.
    while i < n {
        let x = tokens[face + i];
        if set.has(i) {
            i += size(x) as usize;
        } else {
            if reaches(0, d, x) {
                return false;
            }
            i += 1;
        }
    }
    true
}

// Whether what stands at a node, across a hole, uses no binder between the root, at depth e, and itself, and is what stands across the
// lowest hole.
#[tactic(auto, unfolding(crate::specs::Suits::hole_fits))]
fn hole_fits(nodes: Nodes, e: u64, lowest: usize, node: usize) -> bool
    requires lowest_in { lowest < length nodes.tokens.now }
    requires node_in { node < length nodes.tokens.now }
    ensures { result ≡ hole_fits (told nodes.entry.numbers.now) e lowest node }
{
    !nodes.uses(node, e) && nodes.same(node, lowest)
}

// Whether the body that the set makes of the face at a node is, with some argument in its holes, what stands at node `faced`. Up to the
// lowest hole the two agree node by node, so that it stands as far from `faced` as its node from the face.
#[tactic(auto, using(crate::proofs::SuitsLaws::suiting))]
pub fn suits(nodes: Nodes, face: usize, faced: usize, set: NodeSet) -> bool
    requires table { Table nodes.tokens.now }
    requires nested { Nested nodes.tokens.now }
    requires face_in { face < length nodes.tokens.now }
    requires faced_in { faced < length nodes.tokens.now }
    ensures { result ≡ suits_at (told nodes.entry.numbers.now) nodes.entry.tokens.now face faced (mask set) }
{
    let root = nodes.tokens[face];
    let n = size(root) as usize;
    let d = depth(root);
    let e = depth(nodes.tokens[faced]);
    let low = faced + set.lowest();
    let mut i = 0;
    let mut j = faced;
    // A while: below a hole a step is a whole subterm on either side.
    while i < n {
        if j >= nodes.tokens.len() {
            return false;
        }
        let x = nodes.tokens[face + i];
        let y = nodes.tokens[j];
        if set.has(i) {
            if !hole_fits(nodes, e, low, j) {
                return false;
            }
            i += size(x) as usize;
            j += size(y) as usize;
        } else {
            if !same_node(d, x, e, y) {
                return false;
            }
            i += 1;
            j += 1;
        }
    }
    true
}
