// The checker's test that "each filled pattern equals its expression", for any filling that a text names: by walks over the token tables of
// the problem and of the text, with no pattern filled. That its answer is document 01's is proofs/Meaning.
#![tactic(auto)]

ghost use Rattle.std.specs.Prelude.{◌≡◌, ◌≤◌, length};
ghost use Rattle.meaning.specs.Basics.{All, every};
ghost use Rattle.tokens.specs.Token.{Table};
ghost use Rattle.tokens.specs.Key.{Inside};
ghost use Rattle.lockstep.specs.Span.{Walked};
ghost use Rattle.filled.specs.Filled.{walk_across, value_at, faced_value_at, argument_at, hole_at, body_at, application_at, face_at, filled_at};
ghost use Rattle.filled.specs.Ready.{Crossing, Rooms, SaidOf, Faced, Argued, ArguedAt, Bodied, Applied, Slotted};
ghost use Rattle.filled.specs.Grounded.{Grounded};

use lockstep::{Span, walk_at};
use said::{Field, Said};
use tokens::same::same_across;
use tokens::token::{depth, payload, size, tag};

// The subterm at node i of one table walked against that at node j of another, each seen from its own depth.
fn walk_across(t: &[u64], i: usize, u: &[u64], j: usize, out: &mut [u64]) -> Option<usize>
    requires { Crossing t.now i u.now j out.old }
    ensures { Walked (walk_across t.now i u.now j) out.old out.new result }
{
    let x = t[i];
    let y = u[j];
    let span = Span {
        from: i,
        to: i + size(x) as usize,
        at: j,
        d: depth(x),
        e: depth(y),
    };
    walk_at(t, u, span, out)
}

// What a problem is filled with: the tables of its patterns and expressions and of a text, and what the text says. The argument of an
// application and the body of its function are walked with room that is lent for their faces.
#[derive(Clone, Copy)]
struct Filling<'a> {
    ps: &'a [u64],
    es: &'a [u64],
    ts: &'a [u64],
    said: &'a Said,
    ghost patterns: { Table ps.now },
    ghost expressions: { Table es.now },
    ghost text: { Table ts.now },
}

impl<'a> Filling<'a> {
    // Whether the text gives metavariable m a value, and it is what stands at a node.
    #[tactic(auto, unfolding(meaning::specs::Limits::metavariable_count, crate::specs::Filled::value_at))]
    fn value_is(&self, m: usize, node: usize) -> bool
        requires { SaidOf self.now.ts.now self.now.said.now m × Inside self.now.es.now node }
        ensures { result ≡ value_at self.now.ts.now self.now.said.now self.now.es.now m node }
    {
        let Some(Field::Value(at)) = self.said.fields[m] else {
            return false;
        };
        same_across(self.ts, at, self.es, node)
    }

    // The same of the metavariable and the node of a recorded face.
    fn faced_value_is(&self, face: u64) -> bool
        requires { Faced self.now.ps.now self.now.es.now self.now.ts.now self.now.said.now face }
        ensures { result ≡ faced_value_at self.now.ps.now self.now.es.now self.now.ts.now self.now.said.now face }
    {
        let x = self.ps[(face % 65536) as usize];
        self.value_is(payload(x) as usize, (face / 65536) as usize)
    }

    // All recorded faces of an argument.
    fn values_are(&self, faces: &[u64]) -> bool
        requires { All (Faced self.now.ps.now self.now.es.now self.now.ts.now self.now.said.now) faces.now }
        ensures { result ≡ every (faced_value_at self.now.ps.now self.now.es.now self.now.ts.now self.now.said.now) faces.now }
    {
        for face in faces {
            if !self.faced_value_is(*face) {
                return false;
            }
        }
        true
    }

    // Whether the argument at node i, its metavariables filled, is what stands at a node.
    fn argument_is(&self, i: usize, node: usize, scratch: &mut [u64]) -> bool
        requires { (length self.now.ps.now ≤ length scratch.old) × Argued self.now.ps.now self.now.es.now self.now.ts.now self.now.said.now i node }
        ensures { result ≡ argument_at self.now.ps.now self.now.es.now self.now.ts.now self.now.said.now i node }
    {
        match walk_across(self.ps, i, self.es, node, scratch) {
            None => false,
            Some(n) => self.values_are(&scratch[..n]),
        }
    }

    // Whether it is what stands across each hole of a body.
    fn arguments_are(&self, i: usize, holes: &[u64], scratch: &mut [u64]) -> bool
        requires { (length self.now.ps.now ≤ length scratch.old) × All (ArguedAt self.now.ps.now self.now.es.now self.now.ts.now self.now.said.now i) holes.now }
        ensures { result ≡ every (hole_at self.now.ps.now self.now.es.now self.now.ts.now self.now.said.now i) holes.now }
    {
        for hole in holes {
            let node = (*hole / 65536) as usize;
            if !self.argument_is(i, node, scratch) {
                return false;
            }
        }
        true
    }

    // Whether the body at node b of the text, with the filled argument at node i in each hole, is what stands at a node.
    fn body_is(
        &self,
        b: usize,
        i: usize,
        node: usize,
        holes: &mut [u64],
        scratch: &mut [u64],
    ) -> bool
        requires { Rooms self.now.ps.now self.now.ts.now holes.old scratch.old × Bodied self.now.ps.now self.now.es.now self.now.ts.now self.now.said.now b i node }
        ensures { result ≡ body_at self.now.ps.now self.now.es.now self.now.ts.now self.now.said.now b i node }
    {
        match walk_across(self.ts, b, self.es, node, holes) {
            None => false,
            Some(n) => self.arguments_are(i, &holes[..n], scratch),
        }
    }

    // Whether the text gives the function of a recorded application a body, and with the application's argument it is what is faced.
    #[tactic(auto, using(crate::proofs::CodeLaws::application_number), unfolding(meaning::specs::Limits::metavariable_count))]
    fn application_is(&self, face: u64, holes: &mut [u64], scratch: &mut [u64]) -> bool
        requires { Rooms self.now.ps.now self.now.ts.now holes.old scratch.old × Applied self.now.ps.now self.now.es.now self.now.ts.now self.now.said.now face }
        ensures { result ≡ application_at self.now.ps.now self.now.es.now self.now.ts.now self.now.said.now face }
    {
        let i = (face % 65536) as usize;
        let f = payload(self.ps[i]) as usize;
        let Some(Field::Body(b)) = self.said.fields[f] else {
            return false;
        };
        let node = (face / 65536) as usize;
        self.body_is(b, i + 1, node, holes, scratch)
    }

    // One recorded face of the problem: that of an application, or of a metavariable.
    fn face_is(&self, face: u64, holes: &mut [u64], scratch: &mut [u64]) -> bool
        requires { Rooms self.now.ps.now self.now.ts.now holes.old scratch.old × Slotted self.now.ps.now self.now.es.now self.now.ts.now self.now.said.now face }
        ensures { result ≡ face_at self.now.ps.now self.now.es.now self.now.ts.now self.now.said.now face }
    {
        if tag(self.ps[(face % 65536) as usize]) != 6 {
            return self.faced_value_is(face);
        }
        self.application_is(face, holes, scratch)
    }
}

// Whether each filled pattern equals its expression, by the recorded faces of a problem whose shapes agree. `holes` and `scratch` are
// written over.
pub fn filled(
    ps: &[u64],
    es: &[u64],
    faces: &[u64],
    ts: &[u64],
    said: &Said,
    holes: &mut [u64],
    scratch: &mut [u64],
) -> bool
    requires { Grounded ps.now es.now faces.now ts.now said.now holes.old scratch.old }
    ensures { result ≡ filled_at ps.now es.now faces.now ts.now said.now }
{
    let filling = Filling { ps, es, ts, said };
    for face in faces {
        if !filling.face_is(*face, holes, scratch) {
            return false;
        }
    }
    true
}
