// The rows of a problem: one choice for each function, by walks through their faces. What rows are and in what order they come is defined in
// crate `choosing`, where it is proved that they are the problem's.
#![tactic(auto)]

mod functions;

ghost use Rattle.std.specs.Prelude.{◌≡◌, ◌↔◌, true, ◌-◌, ◌<◌, ◌≤◌};
ghost use Rattle.meaning.specs.Limits.{max_functions};
ghost use Rattle.meaning.specs.Basics.{◌∈◌};
ghost use Rattle.meaning.specs.Search.{at, place_of};
ghost use Rattle.masks.specs.Sets.{mask, masks_in};
ghost use Rattle.choosing.specs.Rows.{Next};
ghost use Rattle.rows.specs.Rows.{StepsAt, StepsTo, begun};
ghost use Rattle.rows.specs.Functions.{choices_in, first_in, numbers_in, rows_in, tokens_in};

use choosing::Face;
use faces::first::Firsts;
pub use functions::Functions;
use masks::NodeSet;

// How many functions a row has sets for.
pub const MAX_FUNCTIONS: usize = metavariables::MAX_FUNCTIONS;

impl Functions<'_> {
    // Whether the set, whatever it is, is a choice of function k. One that is not there has the empty choice.
    fn is_choice_of(&self, k: usize, set: NodeSet) -> bool
        requires { k < max_functions }
        ensures { (result ≡ true) ↔ (mask set ∈ choices_in self.now k) }
    {
        if k < self.firsts.count {
            let root = self.firsts.nodes[k];
            let face = Face {
                nodes: self.nodes,
                root,
            };
            face.is_choice(set)
        } else {
            set.is_empty()
        }
    }

    // The first choice of function k.
    fn first_of(&self, k: usize) -> NodeSet
        requires { k < max_functions }
        ensures { mask result ≡ first_in self.now k }
    {
        if k < self.firsts.count {
            let root = self.firsts.nodes[k];
            let face = Face {
                nodes: self.nodes,
                root,
            };
            face.first_choice()
        } else {
            NodeSet::none()
        }
    }

    // The choice of function k after another that has a node, so that the function is there.
    pub fn next_of(&self, k: usize, set: NodeSet) -> NodeSet
        requires function { k < max_functions }
        requires choice { mask set ∈ choices_in self.now k }
        requires more { 0 < mask set }
        ensures { Next (choices_in self.now k) (mask set) (mask result) }
    {
        let root = self.firsts.nodes[k];
        let face = Face {
            nodes: self.nodes,
            root,
        };
        face.next_choice(set)
    }

    // Whether the sets, whatever they are, are a row. Asked only where there are rows: of a problem without any nothing here knows.
    pub fn is_row(&self, row: [NodeSet; MAX_FUNCTIONS]) -> bool
        ensures { (result ≡ true) ↔ (masks_in row ∈ rows_in self.now) }
    {
        for (k, set) in row.iter().enumerate() {
            if !self.is_choice_of(k, *set) {
                return false;
            }
        }
        true
    }

    // The first row. Asked only where there are rows, like `is_row`.
    pub fn first_row(&self) -> [NodeSet; MAX_FUNCTIONS]
        ensures { place_of (rows_in self.now) ≡ at (masks_in result) }
    {
        let mut row = [NodeSet::none(); MAX_FUNCTIONS];
        for k in (0..MAX_FUNCTIONS).rev() {
            row[k] = self.first_of(k);
        }
        row
    }

    // The row after `row`, if there is one.
    pub fn next_row(
        &self,
        first: [NodeSet; MAX_FUNCTIONS],
        row: [NodeSet; MAX_FUNCTIONS],
    ) -> Option<[NodeSet; MAX_FUNCTIONS]>
        requires row { masks_in row ∈ rows_in self.now }
        requires first_row { place_of (rows_in self.now) ≡ at (masks_in first) }
        ensures { StepsTo (tokens_in self.now) (numbers_in self.now) self.now.firsts (masks_in row) result }
    {
        let k = stepping(self.firsts, row);
        if k == 0 {
            return None;
        }
        let mut next = begin_again(self.firsts, first, k, row);
        next[k - 1] = self.next_of(k - 1, next[k - 1]);
        Some(next)
    }
}

// How many functions there are up to the one that steps, which is the last with a choice left; 0 at the last row. What is then to do is
// `begin_again` for the later functions and `next_of` for that one (`next_row`): who goes through many rows keeps one array and writes that
// into it, since a row is 256 bytes and a step changes few of them.
pub fn stepping(firsts: Firsts, row: [NodeSet; MAX_FUNCTIONS]) -> usize
    requires { firsts.count ≤ max_functions }
    ensures { StepsAt firsts.count (masks_in row) result }
{
    for k in (0..firsts.count).rev() {
        if !row[k].is_empty() {
            return k + 1;
        }
    }
    0
}

// The last function, which steps most often; where there is none, number 0, whose set is empty.
pub fn last_function(firsts: Firsts) -> usize
    ensures { result ≡ firsts.count - 1 }
{
    firsts.count.saturating_sub(1)
}

// The row with the functions from k on at their first choices again. The first row is lent: a call that makes many steps computes it once for
// itself. It is never kept with a place, since what a host hands in may be any bytes.
pub fn begin_again(
    firsts: Firsts,
    first: [NodeSet; MAX_FUNCTIONS],
    k: usize,
    row: [NodeSet; MAX_FUNCTIONS],
) -> [NodeSet; MAX_FUNCTIONS]
    requires there { k ≤ firsts.count }
    requires few { firsts.count ≤ max_functions }
    ensures { masks_in result ≡ begun firsts.count (masks_in first) k (masks_in row) }
{
    let mut next = row;
    let end = firsts.count;
    next[k..end].copy_from_slice(&first[k..end]);
    next
}
