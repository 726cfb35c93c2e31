// Two subterms compared up to bound names, and whether a variable is bound outside.
ghost use Rattle.std.specs.Prelude.{◌≡◌, ◌+◌, ◌*◌, ◌<◌};
ghost use Rattle.tokens.specs.Key.{key_of_variable, key_of_payload, key_of, same_keys, same_across, same_at, Inside, reaches};
ghost use Rattle.tokens.specs.Key.{agree_under, compared_by, compared_across};

use crate::token::{depth, payload, size, tag};

// What a comparison answers: whether the two are equal, and how many pairs of nodes it compared.
#[derive(Clone, Copy)]
pub struct Compared {
    pub equal: bool,
    pub pairs: usize,
}

// The key of a variable that is free, bound inside a root at depth d, or bound outside it. No term's table has a level past the depth; should
// one, the de Bruijn index is 0.
#[tactic(auto, unfolding(crate::specs::Key::key_of_variable))]
fn key_of_variable(d: u64, depth: u64, name: u64, level: u64) -> u64
    requires depth_small { depth < 256 }
    requires name_small { name < 65536 }
    requires level_small { level < 65536 }
    ensures key { result ≡ key_of_variable d depth name level }
    ensures small { result < 4294967296 }
{
    if level == 0 {
        4 * name
    } else if d < level {
        4 * depth.saturating_sub(level) + 1
    } else {
        4 * level + 2
    }
}

// What counts of a payload: of a variable as above, of a binder all but its bound name, else the whole.
#[tactic(auto, unfolding(crate::specs::Key::key_of_payload))]
fn key_of_payload(d: u64, tag: u64, depth: u64, load: u64) -> u64
    requires depth_small { depth < 256 }
    requires load_small { load < 4294967296 }
    ensures key { result ≡ key_of_payload d tag depth load }
    ensures small { result < 4294967296 }
{
    match tag {
        2 => key_of_variable(d, depth, load % 65536, load / 65536),
        4 => load % 65536,
        _ => load,
    }
}

// A token's key, seen from a root at depth d.
#[tactic(auto, unfolding(crate::specs::Key::key_of))]
pub fn key_of(d: u64, x: u64) -> u64
    ensures { result ≡ key_of d x }
{
    let kind = tag(x);
    kind + 256 * key_of_payload(d, kind, depth(x), payload(x))
}

// Whether a pair of nodes agrees, each seen from its own root, at depths d and e.
pub fn same_node(d: u64, x: u64, e: u64, y: u64) -> bool
    ensures { result ≡ same_keys d e x y }
{
    key_of(d, x) == key_of(e, y)
}

// Whether a token is a variable with a level above d and at most r: bound outside a root at depth r, inside one at depth d.
#[tactic(auto, unfolding(crate::specs::Key::reaches))]
pub fn reaches(d: u64, r: u64, x: u64) -> bool
    ensures { result ≡ reaches d r x }
{
    let level = payload(x) / 65536;
    tag(x) == 2 && d < level && level <= r
}

// Whether a pair of nodes agrees, each seen from its own root, at depths d and e, that share s binders.
#[tactic(auto, unfolding(crate::specs::Key::agree_under))]
fn agree(d: u64, x: u64, e: u64, y: u64, s: u64) -> bool
    ensures { result ≡ agree_under s d e x y }
{
    same_node(d, x, e, y) && !reaches(s, d, x)
}

// Two lists of nodes compared, pair by pair: the loop ends at the first pair that disagrees, and looks at nothing past it. The lengths come
// last: two terms that differ do so in a pair that both have.
fn compare_nodes(xs: &[u64], d: u64, ys: &[u64], e: u64, s: u64) -> Compared
    ensures { result ≡ compared_by (agree_under s d e) xs.now ys.now }
{
    let mut pairs = 0;
    for (x, y) in xs.iter().zip(ys) {
        pairs += 1;
        if !agree(d, *x, e, *y, s) {
            return Compared {
                equal: false,
                pairs,
            };
        }
    }
    Compared {
        equal: xs.len() == ys.len(),
        pairs,
    }
}

// The subterms at node a of one table and at node b of another compared up to bound names, where s binders lie above both nodes: a variable
// bound outside counts by its level, which is the same binder for both only where it is one of these.
#[tactic(auto, unfolding(crate::specs::Key::compared_across))]
pub fn compare_across(t: &[u64], a: usize, u: &[u64], b: usize, s: u64) -> Compared
    requires first_in { Inside t.now a }
    requires second_in { Inside u.now b }
    ensures { result ≡ compared_across t.now a u.now b s }
{
    let x = t[a];
    let y = u[b];
    let end = a + size(x) as usize;
    let other_end = b + size(y) as usize;
    compare_nodes(&t[a..end], depth(x), &u[b..other_end], depth(y), s)
}

// Whether the two are equal, for one who knows that each binder outside them that they use lies above both: all are shared.
pub fn same_across(t: &[u64], a: usize, u: &[u64], b: usize) -> bool
    requires first_in { Inside t.now a }
    requires second_in { Inside u.now b }
    ensures { result ≡ same_across t.now a u.now b }
{
    compare_across(t, a, u, b, depth(t[a])).equal
}

// The same within one table.
pub fn same(t: &[u64], a: usize, b: usize) -> bool
    requires { (Inside t.now a) × (Inside t.now b) }
    ensures { result ≡ same_at t.now a b }
{
    same_across(t, a, t, b)
}
