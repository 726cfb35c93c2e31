// The choices of one function as paths through the nodes of its face, by their numbers: is this a choice, the first one, the next one. What
// a path is stands in crate `paths`, and what the nodes of a face tell in specs/FaceNodes; that paths are document 01's choices, and rows
// of them its rows, is proofs/Problem.
#![tactic(auto)]

ghost use Rattle.std.specs.Prelude.{◌≡◌, ◌↔◌, true, ◌+◌, ◌<◌, ◌≤◌};
ghost use Rattle.meaning.specs.Basics.{◌∈◌};
ghost use Rattle.masks.specs.Sets.{mask};
ghost use Rattle.choosing.specs.FaceNodes.{size_from, Whole};
ghost use Rattle.choosing.specs.Rows.{choices_from, first_from, Next};
ghost use Rattle.choosing.specs.Walk.{Begun, opens_at, HoledAt, Filled, Ending, Last, LeftAt};

use masks::NodeSet;
use numbers::ask::Nodes;
use tokens::token::{depth, size};

// Where a walk through the nodes of a face stands: the first node that does not lie below a hole, and the number that all holes have, if there
// is a hole so far.
#[derive(Clone, Copy)]
pub struct Walk {
    pub end: usize,
    pub class: Option<u64>,
}

// No hole so far.
fn begun() -> Walk
    ensures { Begun result }
{
    Walk {
        end: 0,
        class: None,
    }
}

// The last node of a set that has one, and none from node n on.
fn last(set: NodeSet, n: usize) -> usize
    requires { Ending set n }
    ensures { Last set result × (result < n) }
{
    for i in (0..n).rev() {
        if set.has(i) {
            return i;
        }
    }
    0
}

// A face in a table of expressions: the nodes from its root on, as many as the root's token says. There are no more of them than a set has
// room for.
#[derive(Clone, Copy)]
pub struct Face<'a> {
    pub nodes: Nodes<'a>,
    pub root: usize,
    ghost whole: { Whole nodes.tokens.now root },
}

impl Face<'_> {
    fn size(self) -> usize
        ensures { result ≡ size_from self.entry.nodes.tokens.now self.entry.root }
    {
        size(self.nodes.tokens[self.root]) as usize
    }

    // Whether node i may become a hole: it does not lie below one, uses no variable bound inside the face above it, and is equal to the holes.
    fn opens(self, walk: Walk, i: usize) -> bool
        requires { i < size_from self.nodes.tokens.now self.root }
        ensures { result ≡ opens_at self.entry.nodes.numbers.now self.entry.nodes.tokens.now self.entry.root walk i }
    {
        if i < walk.end {
            return false;
        }
        if self
            .nodes
            .uses(self.root + i, depth(self.nodes.tokens[self.root]))
        {
            return false;
        }
        match walk.class {
            Some(class) => class == self.nodes.numbers[self.root + i],
            None => true,
        }
    }

    // After a hole at node i.
    fn holed(self, i: usize) -> Walk
        requires { i < size_from self.nodes.tokens.now self.root }
        ensures { HoledAt self.entry.nodes.numbers.now self.entry.nodes.tokens.now self.entry.root i result }
    {
        let node = self.root + i;
        Walk {
            end: i + size(self.nodes.tokens[node]) as usize,
            class: Some(self.nodes.numbers[node]),
        }
    }

    // Whether the set, whatever it is, is a choice of the face: each of its nodes may become a hole where the walk comes to it, and it has no
    // nodes but those that the walk came to.
    pub fn is_choice(self, set: NodeSet) -> bool
        ensures { (result ≡ true)
            ↔ (mask set ∈ choices_from self.entry.nodes.numbers.now self.entry.nodes.tokens.now self.entry.root) }
    {
        let mut walk = begun();
        let mut met = 0;
        for i in 0..self.size() {
            if set.has(i) {
                if !self.opens(walk, i) {
                    return false;
                }
                walk = self.holed(i);
                met += 1;
            }
        }
        met == set.holes()
    }

    // From node `from` on each node that may become a hole does.
    fn fill(self, set: NodeSet, walk: Walk, from: usize) -> NodeSet
        requires { from ≤ size_from self.nodes.tokens.now self.root }
        ensures { Filled self.entry.nodes.numbers.now self.entry.nodes.tokens.now self.entry.root set walk from result }
    {
        let mut filled = set;
        let mut at = walk;
        for i in from..self.size() {
            if self.opens(at, i) {
                filled = filled.with(i);
                at = self.holed(i);
            }
        }
        filled
    }

    // The first choice of the face.
    pub fn first_choice(self) -> NodeSet
        ensures { mask result ≡ first_from self.entry.nodes.numbers.now self.entry.nodes.tokens.now self.entry.root }
    {
        self.fill(NodeSet::none(), begun(), 0)
    }

    // Where a walk stands after node i was left out of a choice that had it: the other holes, if there are any, are before it and equal to it.
    fn left_at(self, left: NodeSet, i: usize) -> Walk
        requires { i < size_from self.nodes.tokens.now self.root }
        ensures { LeftAt self.entry.nodes.numbers.now self.entry.root left i result }
    {
        if left.is_empty() {
            return begun();
        }
        Walk {
            end: 0,
            class: Some(self.nodes.numbers[self.root + i]),
        }
    }

    // The choice after another that has a node: its last node is left out, and after it each node that may become a hole does.
    pub fn next_choice(self, set: NodeSet) -> NodeSet
        requires choice { mask set ∈ choices_from self.nodes.numbers.now self.nodes.tokens.now self.root }
        requires more { 0 < mask set }
        ensures { Next (choices_from self.entry.nodes.numbers.now self.entry.nodes.tokens.now self.entry.root) (mask set) (mask result) }
    {
        let i = last(set, self.size());
        let left = set.without(i);
        self.fill(left, self.left_at(left, i), i + 1)
    }
}
