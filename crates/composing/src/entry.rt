// What the text of a row has for each metavariable: "one field for each metavariable that occurs, ascending".
ghost use Rattle.std.specs.Prelude.{◌≡◌, ◌<◌};
ghost use Rattle.composing.specs.Entries.{Planned, body_at, value_at, entry_at};

use masks::NodeSet;
use metavariables::{MAX_FUNCTIONS, Occurring, in_set, rank};
use sources::Sources;

// Where the entries of a row are looked up: the problem's metavariables, the face and the node set of each function, and the nodes that the
// values are copied from.
#[derive(Clone, Copy)]
pub struct Plan {
    pub occurring: Occurring,
    pub nodes: [usize; MAX_FUNCTIONS],
    pub row: [NodeSet; MAX_FUNCTIONS],
    pub sources: Sources,
}

// What the text has for a metavariable that occurs.
#[derive(Clone, Copy)]
pub enum Entry {
    // "11 (open)"
    Open,
    // "8 (value)": the node that it is copied from.
    Value(usize),
    // "9 (body)": the node of the face, and which of its nodes become holes.
    Body(usize, NodeSet),
}

// The entry of a function, by its place among the functions.
fn body_of(plan: Plan, k: usize) -> Entry
    requires { Planned plan × (k < 8) }
    ensures { result ≡ body_at plan k }
{
    Entry::Body(plan.nodes[k], plan.row[k])
}

// The entry of a metavariable that is no function.
fn value_of(plan: Plan, m: usize) -> Entry
    requires { Planned plan × (m < 32) }
    ensures { result ≡ value_at plan m }
{
    match plan.sources.nodes[m] {
        Some(node) => Entry::Value(node),
        None => Entry::Open,
    }
}

// The entry of a metavariable, or none where it does not occur.
pub fn entry_of(plan: Plan, m: u32) -> Option<Entry>
    requires { Planned plan × (m < 32) }
    ensures { result ≡ entry_at plan m }
{
    let functions = plan.occurring.functions;
    if in_set(functions, m) {
        Some(body_of(plan, rank(functions, m)))
    } else if in_set(plan.occurring.plain, m) {
        Some(value_of(plan, m as usize))
    } else {
        None
    }
}
