// Lists of calls: one search call for each allowance, from the start of a problem on, each at the place that the call before it left. What
// `run` promises is document 01's third demand itself, so that a caller has no theorem to add.
#![tactic(auto)]

ghost use Rattle.std.specs.Prelude.{◌+◌, ◌*◌, ◌≤◌, length};
ghost use Rattle.meaning.specs.Accept.{accept};
ghost use Rattle.words.specs.Words.{row_words};
ghost use Rattle.calls.specs.Running.{Called, FromPlace, Runs};

use places::Place;
use refusal::Refusal;
use search::call::search;
use seeking::Answer;
use words::{ROW_WORDS, put_row};

// Where a list of calls stands: the place left, the Founds so far, and whether one of the calls was an End.
#[derive(Clone, Copy)]
pub struct Progress {
    pub place: Place,
    pub found: usize,
    pub ended: bool,
}

// The number of the Founds, and whether there was an End.
#[derive(Clone, Copy)]
pub struct Ran {
    pub found: usize,
    pub ended: bool,
}

// One call more. A refused one leaves all as it was: "the same place after a refusal".
fn call(problem: &[u8], at: Progress, n: u32, rows: &mut [u64]) -> Progress
    requires { row_words * at.found + row_words ≤ length rows.old }
    ensures { Called problem.now at n rows.old rows.new result }
{
    let Ok(searched) = search(problem, at.place, n) else {
        return at;
    };
    let place = searched.place;
    match searched.answer {
        Answer::Found(row) => {
            put_row(rows, ROW_WORDS * at.found, row);
            Progress {
                place,
                found: at.found + 1,
                ..at
            }
        }
        Answer::End => Progress {
            place,
            ended: true,
            ..at
        },
        Answer::Paused => Progress { place, ..at },
    }
}

// A call for each allowance, from a place on.
fn from_place(problem: &[u8], place: Place, allowances: &[u32], rows: &mut [u64]) -> Progress
    requires { row_words * length allowances.now ≤ length rows.old }
    ensures { FromPlace problem.now place allowances.now rows.old rows.new result }
{
    let mut at = Progress {
        place,
        found: 0,
        ended: false,
    };
    for n in allowances {
        at = call(problem, at, *n, rows);
    }
    at
}

// A call for each allowance, from the start of any bytes: the rows of the Founds stand at the front of `rows`, ROW_WORDS words each, in order.
pub fn run(problem: &[u8], allowances: &[u32], rows: &mut [u64]) -> Result<Ran, Refusal>
    requires { row_words * length allowances.now ≤ length rows.old }
    ensures { Runs (accept problem.now) problem.now allowances.now rows.old rows.new result }
{
    let place = Place::start(problem)?;
    let at = from_place(problem, place, allowances, rows);
    Ok(Ran {
        found: at.found,
        ended: at.ended,
    })
}
