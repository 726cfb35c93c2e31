// The test of a row: whether it is a solution row, and where the value of each metavariable is copied from. It looks at the token tables,
// at the numbers of the expressions' nodes and at the recorded faces alone. That its answer is document 01's is proofs/Meaning.
#![tactic(auto)]

mod tables;

ghost use Rattle.std.specs.Prelude.{◌≡◌, true};
ghost use Rattle.std.specs.Bool.{then_some};
ghost use Rattle.masks.specs.Sets.{mask, masks_in};
ghost use Rattle.meaning.specs.Basics.{All};
ghost use Rattle.sources.specs.Kept.{Answers};
ghost use Rattle.fit.specs.Judging.{none_kept};
ghost use Rattle.fit.specs.Tables.{Room, KeptIn, BodiesIn, WalkableIn, ApplicableIn, SlotsIn, ReadyIn};
ghost use Rattle.fit.specs.Tables.{closed_in, span_in, argument_in, application_in, face_in, faces_in, demanded_in, judged_in};

use bodies::{body_closed, suits};
use lockstep::{Span, walk_at};
use masks::NodeSet;
use metavariables::{MAX_FUNCTIONS, METAVARIABLES, rank};
use sources::{Sources, all_demanded};
pub use tables::Tables;
use tokens::token::{depth, payload, size, tag};

impl Tables<'_> {
    // Whether the body of each function is closed.
    #[tactic(auto, using(crate::proofs::CodeLaws::closing), unfolding(meaning::specs::Limits::max_functions))]
    fn bodies_closed(&self, row: &[NodeSet; MAX_FUNCTIONS]) -> bool
        requires { BodiesIn self.now (masks_in row.now) }
        ensures { result ≡ closed_in self.now (masks_in row.now) }
    {
        for k in 0..self.firsts.count {
            if !body_closed(self.nodes.tokens, self.firsts.nodes[k], row[k]) {
                return false;
            }
        }
        true
    }

    // The nodes of the argument of the application that a face is recorded of, across from the lowest hole of its function's body.
    #[tactic(auto, using(crate::proofs::CodeLaws::span_is))]
    fn argument_span(&self, face: u64, set: NodeSet) -> Span
        requires { WalkableIn self.now face (mask set) }
        ensures { result ≡ span_in self.now face (mask set) }
    {
        let i = (face % 65536) as usize;
        let x = self.patterns[i];
        let at = (face / 65536) as usize + set.lowest();
        Span {
            from: i + 1,
            to: i + size(x) as usize,
            at,
            d: depth(x),
            e: depth(self.nodes.tokens[at]),
        }
    }

    // What that argument demands there.
    #[tactic(auto, using(crate::proofs::CodeLaws::argument_disagrees))]
    fn argument_demanded(
        &self,
        face: u64,
        set: NodeSet,
        kept: &mut Sources,
        scratch: &mut [u64],
    ) -> bool
        requires room { Room self.now scratch.old }
        requires walks { WalkableIn self.now face (mask set) }
        requires kept { KeptIn self.now kept.old.nodes }
        ensures { Answers (argument_in self.now face (mask set) kept.old.nodes) (then_some result kept.new) }
    {
        let span = self.argument_span(face, set);
        match walk_at(self.patterns, self.nodes.tokens, span, scratch) {
            Some(n) => all_demanded(self.patterns, self.nodes.numbers, &scratch[..n], kept),
            None => false,
        }
    }

    // One application, by the face and the set of its function: the body has to suit what is faced, and without a hole the argument demands
    // nothing.
    #[tactic(auto, using(crate::proofs::CodeLaws::applying))]
    fn application_demanded(
        &self,
        face: u64,
        node: usize,
        set: NodeSet,
        kept: &mut Sources,
        scratch: &mut [u64],
    ) -> bool
        requires room { Room self.now scratch.old }
        requires applies { ApplicableIn self.now face node (mask set) }
        requires kept { KeptIn self.now kept.old.nodes }
        ensures { Answers (application_in self.now face node (mask set) kept.old.nodes) (then_some result kept.new) }
    {
        if !suits(self.nodes, node, (face / 65536) as usize, set) {
            return false;
        }
        if set.is_empty() {
            return true;
        }
        self.argument_demanded(face, set, kept, scratch)
    }

    // One recorded face: that of an application, by the rank of its function.
    #[tactic(auto, using(crate::proofs::CodeLaws::facing), unfolding(meaning::specs::Limits::metavariable_count, meaning::specs::Limits::max_functions))]
    fn face_demanded(
        &self,
        face: u64,
        row: &[NodeSet; MAX_FUNCTIONS],
        kept: &mut Sources,
        scratch: &mut [u64],
    ) -> bool
        requires room { Room self.now scratch.old }
        requires slots { SlotsIn self.now (masks_in row.now) face }
        requires kept { KeptIn self.now kept.old.nodes }
        ensures { Answers (face_in self.now (masks_in row.now) face kept.old.nodes) (then_some result kept.new) }
    {
        let x = self.patterns[(face % 65536) as usize];
        if tag(x) != 6 {
            return true;
        }
        let k = rank(self.functions, payload(x) as u32);
        self.application_demanded(face, self.firsts.nodes[k], row[k], kept, scratch)
    }

    // All recorded faces in order, until one does not fit or its demands disagree.
    #[tactic(auto, using(crate::proofs::CodeLaws::going))]
    fn faces_demanded(
        &self,
        row: &[NodeSet; MAX_FUNCTIONS],
        kept: &mut Sources,
        scratch: &mut [u64],
    ) -> bool
        requires room { Room self.now scratch.old }
        requires slots { All (SlotsIn self.now (masks_in row.now)) self.now.faces.now }
        requires kept { KeptIn self.now kept.old.nodes }
        ensures { Answers (faces_in self.now (masks_in row.now) kept.old.nodes) (then_some result kept.new) }
    {
        for face in self.faces {
            if !self.face_demanded(*face, row, kept, scratch) {
                return false;
            }
        }
        true
    }

    // What the plain faces demand, and then the applications: "A value comes from the metavariable's first occurrence outside arguments, else
    // from the first application whose function has a hole".
    #[tactic(auto, using(crate::proofs::CodeLaws::plain))]
    fn all_faces(
        &self,
        row: &[NodeSet; MAX_FUNCTIONS],
        kept: &mut Sources,
        scratch: &mut [u64],
    ) -> bool
        requires ready { ReadyIn self.now (masks_in row.now) scratch.old }
        requires closed { closed_in self.now (masks_in row.now) ≡ true }
        requires none { kept.old.nodes ≡ none_kept }
        ensures { Answers (demanded_in self.now (masks_in row.now)) (then_some result kept.new) }
    {
        if !all_demanded(self.patterns, self.nodes.numbers, self.faces, kept) {
            return false;
        }
        self.faces_demanded(row, kept, scratch)
    }
}

// A row of an accepted problem that has rows: where the values are copied from, or None where it is no solution row. `scratch` is written
// over.
#[tactic(auto, using(crate::proofs::CodeLaws::judging))]
pub fn judge(tables: &Tables, row: [NodeSet; MAX_FUNCTIONS], scratch: &mut [u64]) -> Option<Sources>
    requires { ReadyIn tables.now (masks_in row) scratch.old }
    ensures { Answers (judged_in tables.now (masks_in row)) result }
{
    if !tables.bodies_closed(&row) {
        return None;
    }
    let mut kept = Sources {
        nodes: [None; METAVARIABLES as usize],
    };
    if !tables.all_faces(&row, &mut kept, scratch) {
        return None;
    }
    Some(kept)
}
