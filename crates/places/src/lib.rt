// Places as a host holds them: a node set for each function by ascending number, and whether it is past the last. Any value may be handed
// in; which place of a problem it names, if any, is looked up in the problem's tables.
#![tactic(auto)]

ghost use Rattle.std.specs.Prelude.{◌≡◌, true, ◌↔◌, replicate};
ghost use Rattle.meaning.specs.Limits.{max_functions};
ghost use Rattle.meaning.specs.Entry.{start_call};
ghost use Rattle.masks.specs.Sets.{masks_in};
ghost use Rattle.places.specs.Places.{AtRow, AtPast, Tells, Begins, Starts};

use masks::NodeSet;
use prepare::prepare_lent;
use refusal::Refusal;
use rows::Functions;
use table::TABLE_ROOM;

// The flag stands beside the sets, and no enum tells a row from past the last: a host may hand in any value, also past with sets that are
// not empty, and what such a value names is promised too.
#[derive(Clone, Copy)]
pub struct Place {
    pub sets: [NodeSet; Place::MAX_FUNCTIONS],
    pub past: bool,
}

// The place that a value names: a row, with the functions that choose it, or past the last.
#[derive(Clone, Copy)]
pub enum Named<'a> {
    Row(Functions<'a>),
    Past,
}

// Whether no set has a node.
fn all_empty(sets: [NodeSet; Place::MAX_FUNCTIONS]) -> bool
    ensures { (result ≡ true) ↔ (masks_in sets ≡ replicate max_functions 0) }
{
    sets.iter().all(|set| set.is_empty())
}

impl Place {
    // How many functions a place has sets for, and how many nodes a set has room for.
    pub const MAX_FUNCTIONS: usize = rows::MAX_FUNCTIONS;

    pub const MAX_FACE_NODES: usize = NodeSet::ROOM;

    pub fn at(row: [NodeSet; Place::MAX_FUNCTIONS]) -> Place
        ensures { AtRow row result }
    {
        Place {
            sets: row,
            past: false,
        }
    }

    #[tactic(auto, unfolding(meaning::specs::Limits::max_functions))]
    pub fn past_last() -> Place
        ensures { AtPast result }
    {
        Place {
            sets: [NodeSet::none(); Place::MAX_FUNCTIONS],
            past: true,
        }
    }

    // The first row, or past the last where the problem has no rows.
    fn first(functions: Option<Functions>) -> Place
        ensures { Begins functions.entry result }
    {
        match functions {
            Some(functions) => Place::at(functions.first_row()),
            None => Place::past_last(),
        }
    }

    // The start of the problem, from any bytes.
    pub fn start(problem: &[u8]) -> Result<Place, Refusal>
        ensures { Starts (start_call problem.now) result }
    {
        let mut ps = [0u64; TABLE_ROOM];
        let mut es = [0u64; TABLE_ROOM];
        let mut ns = [0u64; TABLE_ROOM];
        let mut fs = [0u64; TABLE_ROOM];
        let prepared = prepare_lent(problem, &mut ps, &mut es, &mut ns, &mut fs)?;
        Ok(Place::first(prepared.functions))
    }
}

// What the value names, by the functions of a problem, or None where it has no rows: "16 no such place" where it names neither a row nor past
// the last.
pub fn named_by<'a>(place: Place, functions: Option<Functions<'a>>) -> Result<Named<'a>, Refusal>
    ensures { Tells place functions.entry result }
{
    if place.past {
        return if all_empty(place.sets) {
            Ok(Named::Past)
        } else {
            Err(Refusal::NoSuchPlace)
        };
    }
    match functions {
        Some(functions) if functions.is_row(place.sets) => Ok(Named::Row(functions)),
        _ => Err(Refusal::NoSuchPlace),
    }
}
