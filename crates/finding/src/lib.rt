// A search call that hands over the text of what it finds: the row of a Found, written at once into a buffer that is always enough.
#![tactic(auto)]

ghost use Rattle.std.specs.Prelude.{◌≤◌, length};
ghost use Rattle.meaning.specs.Limits.{largest_written};
ghost use Rattle.finding.specs.Finding.{Finds};

use places::Place;
use refusal::Refusal;
use search::call::search;
use seeking::{Answer, Searched};
use writing::write::write;

// What the search answered, and how long the text is: 0 where nothing is found.
#[derive(Clone, Copy)]
pub struct Finding {
    pub searched: Searched,
    pub length: usize,
}

pub fn find(problem: &[u8], place: Place, n: u32, text: &mut [u8]) -> Result<Finding, Refusal>
    requires { largest_written ≤ length text.old }
    ensures { Finds problem.now place n text.old text.new result }
{
    let searched = search(problem, place, n)?;
    let Answer::Found(row) = searched.answer else {
        return Ok(Finding {
            searched,
            length: 0,
        });
    };
    // There is room for any text, and the row of a Found is not refused.
    let length = write(problem, Place::at(row), text)?;
    Ok(Finding { searched, length })
}
