// Judging rows one after the other, from a row of a prepared problem on. What happens here once a row is small and allocates nothing.
#![tactic(auto)]

mod fixed;

ghost use Rattle.meaning.specs.Basics.{◌∈◌};
ghost use Rattle.masks.specs.Sets.{masks_in};
ghost use Rattle.rows.specs.Functions.{rows_in};
ghost use Rattle.fit.specs.Tables.{Room};
ghost use Rattle.seeking.specs.Seeking.{Grounded, Passed, Ended, Paused, Seeks};

use fit::judge;
pub use fixed::Fixed;
use masks::NodeSet;
use places::Place;
use rows::{begin_again, last_function, stepping};

#[derive(Clone, Copy)]
pub enum Answer {
    // The row that was found.
    Found([NodeSet; Place::MAX_FUNCTIONS]),
    End,
    Paused,
}

// The answer, with the place that the call leaves.
#[derive(Clone, Copy)]
pub struct Searched {
    pub answer: Answer,
    pub place: Place,
}

pub fn ended() -> Searched
    ensures { Ended result }
{
    Searched {
        answer: Answer::End,
        place: Place::past_last(),
    }
}

fn pause_at(row: [NodeSet; Place::MAX_FUNCTIONS]) -> Searched
    ensures { Paused row result }
{
    Searched {
        answer: Answer::Paused,
        place: Place::at(row),
    }
}

impl Fixed<'_> {
    // A Found at the row, and the place after it.
    #[tactic(auto, using(crate::proofs::SeekLaws::passing))]
    fn found_at(&self, row: [NodeSet; Place::MAX_FUNCTIONS]) -> Searched
        requires { masks_in row ∈ rows_in self.now.functions }
        ensures { Passed self.now row result }
    {
        let place = match self.functions.next_row(self.first, row) {
            Some(next) => Place::at(next),
            None => Place::past_last(),
        };
        Searched {
            answer: Answer::Found(row),
            place,
        }
    }

    // Rows from `row` on, at most n: the first solution row, or that none is left, or a pause at the row after n of them.
    pub fn seek(
        &self,
        row: [NodeSet; Place::MAX_FUNCTIONS],
        n: u32,
        scratch: &mut [u64],
    ) -> Searched
        requires grounded { Grounded self.now }
        requires is_row { masks_in row ∈ rows_in self.now.functions }
        requires room { Room self.now.tables scratch.old }
        ensures { Seeks self.now (masks_in row) n result }
    {
        let firsts = self.functions.firsts;
        let last = last_function(firsts);
        let mut at = row;
        for _ in 0..n {
            if judge(&self.tables, at, scratch).is_some() {
                return self.found_at(at);
            }
            let mut k = firsts.count;
            // Most steps are the last function's: then no row is handed over, which would copy it.
            if at[last].is_empty() {
                k = stepping(firsts, at);
                if k == 0 {
                    return ended();
                }
                at = begin_again(firsts, self.first, k, at);
            }
            at[k - 1] = self.functions.next_of(k - 1, at[k - 1]);
        }
        pause_at(at)
    }
}
