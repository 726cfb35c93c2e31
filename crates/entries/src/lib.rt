// The parts of the checker's decision that look only at which field a text has for each metavariable, and at holes: each is a function
// of its own, so that one can say which of them fails. That their answers are document 01's is proofs/Meaning.
#![tactic(auto)]

ghost use Rattle.std.specs.Prelude.{◌≡◌, ◌<◌, ℕ, Bool, ◌||◌};
ghost use Rattle.meaning.specs.Limits.{metavariable_count};
ghost use Rattle.metavariables.specs.Survey.{has};
ghost use Rattle.tokens.specs.Token.{Table};
ghost use Rattle.tokens.specs.Key.{Inside, part};
ghost use Rattle.said.specs.Said.{field_of};
ghost use Rattle.entries.specs.Sets.{SetOf, within};
ghost use Rattle.entries.specs.Fields.{unsaid, says_value, says_body, says_open, known_at, kinds_at, open_unneeded_at, unneeded_open_at};
ghost use Rattle.entries.specs.Holes.{any_hole, BodyIn, field_holed, holed_at, Bodied};
ghost use Rattle.entries.specs.Needed.{holeless, needed_at};

use metavariables::{METAVARIABLES, Occurring, in_set, joined};
use said::{Field, Said};
use tokens::token::{payload, size, tag};

// "10 (hole ..)"
const HOLE: u64 = 10;

// The set of all metavariables.
const ALL: u32 = u32::MAX;

// Whether each metavariable of one set is in another.
fn within(inner: u32, outer: u32) -> bool
    ensures { result ≡ within inner outer }
{
    inner & outer == inner
}

// Whether a number, which may be that of no metavariable, is in the set.
fn holds(set: u32, m: u64) -> bool
    ensures { result ≡ has set m }
{
    m < u64::from(METAVARIABLES) && in_set(set, m as u32)
}

// Tests of a metavariable's field: there is none, or it says what the test's name says.
fn unsaid(field: Option<Field>) -> bool
    ensures { result ≡ unsaid field }
{
    field.is_none()
}

fn says_body(field: Option<Field>) -> bool
    ensures { result ≡ says_body field }
{
    matches!(field, Some(Field::Body(_)))
}

fn says_value_or_open(field: Option<Field>) -> bool
    ensures { result ≡ says_value field || says_open field }
{
    matches!(field, Some(Field::Value(_) | Field::Open))
}

fn says_open(field: Option<Field>) -> bool
    ensures { result ≡ says_open field }
{
    matches!(field, Some(Field::Open))
}

// The metavariables whose field passes a test: where its answers are those of a test q of the metavariables, the set of those that pass q.
fn having<F: Fn(Option<Field>) -> bool>(said: &Said, test: F) -> u32
    requires { (m : ℕ) → m < metavariable_count → F.pre test (field_of said.now m) }
    ensures { (q : ℕ → Bool) → ((m : ℕ) (yes : Bool) → m < metavariable_count → F.post test (field_of said.now m) yes → yes ≡ q m) → SetOf q result }
{
    let mut set = 0u32;
    for (m, field) in said.fields.iter().enumerate() {
        set = joined(set, test(*field), m as u64);
    }
    set
}

// Whether each metavariable that has a field occurs.
pub fn known(said: &Said, occurring: Occurring) -> bool
    ensures { result ≡ known_at said.now occurring }
{
    within(
        ALL,
        having(said, unsaid) | (occurring.functions | occurring.plain),
    )
}

// Whether each function has a body, and each other metavariable a value or nothing.
pub fn kinds(said: &Said, occurring: Occurring) -> bool
    ensures { result ≡ kinds_at said.now occurring }
{
    within(occurring.functions, having(said, says_body))
        && within(occurring.plain, having(said, says_value_or_open))
}

// Whether some node of a list is a hole.
fn any_hole(nodes: &[u64]) -> bool
    ensures { result ≡ any_hole nodes.now }
{
    nodes.iter().any(|x| tag(*x) == HOLE)
}

// Whether some node of the subterm at a node is a hole.
fn has_hole(ts: &[u64], node: usize) -> bool
    requires { Inside ts.now node }
    ensures { result ≡ any_hole (part ts.now node) }
{
    let end = node + size(ts[node]) as usize;
    any_hole(&ts[node..end])
}

// Whether a field is a body with a hole.
fn body_holed(ts: &[u64], field: Option<Field>) -> bool
    requires { BodyIn ts.now field }
    ensures { result ≡ field_holed ts.now field }
{
    match field {
        Some(Field::Body(node)) => has_hole(ts, node),
        _ => false,
    }
}

// The functions whose body has a hole.
pub fn holed(ts: &[u64], said: &Said) -> u32
    requires { Bodied ts.now said.now }
    ensures { SetOf (holed_at ts.now said.now) result }
{
    having(said, |field| body_holed(ts, field))
}

// Whether a token is the application of a function whose body has no hole, so that nothing in its argument needs a value.
fn holeless(holed: u32, x: u64) -> bool
    ensures { result ≡ holeless holed x }
{
    tag(x) == 6 && !holds(holed, payload(x))
}

// The metavariables that need a value: they stand alone, or in the argument of a function whose body has a hole.
pub fn needed(ps: &[u64], holed: u32) -> u32
    requires { Table ps.now }
    ensures { SetOf (needed_at ps.now holed) result }
{
    let mut set = 0u32;
    let mut i = 0;
    // A `while`: a step may be a whole subterm.
    while i < ps.len() {
        let x = ps[i];
        if holeless(holed, x) {
            i += size(x) as usize;
        } else {
            set = joined(set, tag(x) == 5, payload(x));
            i += 1;
        }
    }
    set
}

// Whether no metavariable that is open needs a value.
pub fn open_unneeded(said: &Said, needed: u32) -> bool
    ensures { result ≡ open_unneeded_at said.now needed }
{
    having(said, says_open) & needed == 0
}

// Whether each metavariable that is no function and needs no value is open.
pub fn unneeded_open(said: &Said, plain: u32, needed: u32) -> bool
    ensures { result ≡ unneeded_open_at said.now plain needed }
{
    within(plain, having(said, says_open) | needed)
}
