// What a host may call, and the names that it needs for that: the start of a problem (`Place::start`), a search call that is handed a place
// or an open search, the writer and the checker, and the writer of T-13's problem. None of them has a `requires`: any bytes, place, open
// search, text, number of nodes and buffer may be handed in.
#![tactic(auto)]

ghost use Rattle.matcher.specs.Opened.{OpenAt, OpenAnswers};

pub use checking::{Verdict, check};
pub use longest::write_longest;
pub use masks::NodeSet;
pub use places::Place;
pub use refusal::Refusal;
pub use search::call::search;
pub use seeking::{Answer, Searched};
pub use writing::write::write;

// "A host keeps one open search and hands it to each call, which moves its place."
#[derive(Clone, Copy)]
pub struct OpenSearch {
    pub place: Place,
}

// The open search as a call leaves it, and what the call answers.
#[derive(Clone, Copy)]
pub struct Moved {
    pub search: OpenSearch,
    pub answer: Result<Answer, Refusal>,
}

impl OpenSearch {
    pub fn at(place: Place) -> OpenSearch
        ensures { OpenAt place result }
    {
        OpenSearch { place }
    }
}

// A call on an open search that is lent. A refused call leaves it as it was.
pub fn search_open(kept: &mut OpenSearch, problem: &[u8], n: u32) -> Result<Answer, Refusal>
    ensures { OpenAnswers problem.now kept.old.place n kept.new.place result }
{
    let searched = search(problem, kept.place, n)?;
    kept.place = searched.place;
    Ok(searched.answer)
}

// A call on an open search that is handed in and handed back by value.
pub fn search_owned(kept: OpenSearch, problem: &[u8], n: u32) -> Moved
    ensures { OpenAnswers problem.now kept.place n result.search.place result.answer }
{
    let mut search = kept;
    let answer = search_open(&mut search, problem, n);
    Moved { search, answer }
}
