// The first face of each function, and whether one is over the limit.
ghost use Rattle.std.specs.Prelude.{◌≡◌, ◌+◌, ◌<◌, ◌≤◌, length};
ghost use Rattle.meaning.specs.Limits.{metavariable_count};
ghost use Rattle.metavariables.specs.Survey.{count};
ghost use Rattle.faces.specs.First.{applies, first_in, option_of, firsts_of, listed, FirstsFit, Pushed, Listing, Listed, large, any_large};

use metavariables::{MAX_FUNCTIONS, METAVARIABLES, in_set};
use tokens::token::{payload, size, tag};

// T-10: "A face may have 256"
const MAX_FACE_NODES: u64 = masks::NodeSet::ROOM as u64;

// No table has a node of this number. It is listed where a function has no face: a function of an accepted problem that has rows has one.
const ABSENT: usize = 65536;

// The expression's node of each function's first face, by ascending metavariable. An array by value: there are few, so that
// no caller has to lend room for them, and entries past `count` are not used. No `ArrayVec`, which is not `Copy`, as what holds these is.
#[derive(Clone, Copy)]
pub struct Firsts {
    pub nodes: [usize; MAX_FUNCTIONS],
    pub count: usize,
}

// Whether a recorded face is that of an application of f.
fn applies(ps: &[u64], f: u64, n: u64) -> bool
    ensures { result ≡ applies ps.now f n }
{
    let i = (n % 65536) as usize;
    if i >= ps.len() {
        return false;
    }
    let x = ps[i];
    tag(x) == 6 && f == payload(x)
}

// The expression's node that f faces first.
pub fn first_face(ps: &[u64], faces: &[u64], f: u64) -> Option<usize>
    ensures { result ≡ option_of (first_in ps.now f faces.now) }
{
    for n in faces {
        if applies(ps, f, *n) {
            return Some((*n / 65536) as usize);
        }
    }
    None
}

// One node more.
fn pushed(firsts: Firsts, node: usize) -> Firsts
    requires { FirstsFit firsts × (firsts.count < 8) }
    ensures { Pushed firsts node result }
{
    let at = firsts.count;
    let mut next = firsts;
    next.nodes[at] = node;
    next.count = at + 1;
    next
}

// With the first face of m too, where m is in the set of functions; those below m have been looked up.
fn looked_up(firsts: Firsts, ps: &[u64], faces: &[u64], functions: u32, m: u32) -> Firsts
    requires { Listing ps.now faces.now functions m firsts × (m < 32) × (length (firsts_of ps.now faces.now functions) ≤ 8) }
    ensures { Listing ps.now faces.now functions (m + 1) result }
{
    if in_set(functions, m) {
        pushed(
            firsts,
            first_face(ps, faces, u64::from(m)).unwrap_or(ABSENT),
        )
    } else {
        firsts
    }
}

pub fn first_faces(ps: &[u64], faces: &[u64], functions: u32) -> Firsts
    requires { count metavariable_count functions ≤ 8 }
    ensures { Listed ps.now faces.now functions result }
{
    let mut firsts = Firsts {
        nodes: [0usize; MAX_FUNCTIONS],
        count: 0,
    };
    for m in 0..METAVARIABLES {
        firsts = looked_up(firsts, ps, faces, functions, m);
    }
    firsts
}

fn large(es: &[u64], node: usize) -> bool
    ensures { result ≡ large es.now node }
{
    node < es.len() && size(es[node]) > MAX_FACE_NODES
}

// Whether a face has more nodes than it may (14).
pub fn any_large(es: &[u64], firsts: Firsts) -> bool
    requires { FirstsFit firsts }
    ensures { result ≡ any_large es.now (listed firsts) }
{
    firsts.nodes[..firsts.count]
        .iter()
        .any(|node| large(es, *node))
}
