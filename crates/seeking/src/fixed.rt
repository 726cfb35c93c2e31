// What stays the same from row to row.
ghost use Rattle.std.specs.Prelude.{◌≡◌};
ghost use Rattle.meaning.specs.Search.{at, place_of};
ghost use Rattle.masks.specs.Sets.{masks_in};
ghost use Rattle.rows.specs.Functions.{rows_in};

use fit::Tables;
use masks::NodeSet;
use places::Place;
use rows::Functions;

// The tables of a problem that has rows, by which a row is judged; its functions, by which one is stepped from; and the first row, which a step
// is lent. `Grounded`, which `seek` asks of these, is no ghost field: that holds no data, and `Grounded` has the problem.
#[derive(Clone, Copy)]
pub struct Fixed<'a> {
    pub tables: Tables<'a>,
    pub functions: Functions<'a>,
    pub first: [NodeSet; Place::MAX_FUNCTIONS],
    ghost begins: { place_of (rows_in functions) ≡ at (masks_in first) },
}
