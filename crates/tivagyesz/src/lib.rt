// The matcher for programs in C, declared in include/matcher.h. A place is words that the caller keeps; every function takes any bytes, any
// words and any buffers, and answers a number: a refusal of document 01 or of its change requests, or what the call found. This is a library,
// on which `promises` stands; `tivagyesz_c` puts the same functions into an archive.
#![tactic(auto)]

pub mod codes;

ghost use Rattle.std.specs.Prelude.{◌≡◌, ◌≤◌, length};
ghost use Rattle.places.specs.Places.{value_of};
ghost use Rattle.search.specs.Calling.{reply_with};
ghost use Rattle.copying.specs.Answered.{answer_of};
ghost use Rattle.words.specs.Words.{place_words};
ghost use Rattle.tivagyesz.specs.Exported.{place_into, Told, RowTold, Given, length_after};
ghost use Rattle.tivagyesz.specs.Exported.{StartExport, SearchExport, WriteExport, LongestExport, CheckExport};

use checking::check;
use codes::{END, FOUND, OK, PAUSED, check_code, refusal_code, write_code};
use longest::write_longest;
use places::Place;
use refusal::Refusal;
use search::call::search;
use seeking::{Answer, Searched};
use words::{PLACE_WORDS, place_of, put_place};
use writing::write::write;

// The start, where the words have room for a place.
fn give_start(words: &mut [u64], first: Place) -> u32
    ensures { Told (place_into words.old (value_of first)) words.old words.new result }
{
    if words.len() < PLACE_WORDS {
        refusal_code(Refusal::BufferTooShort)
    } else {
        put_place(words, first);
        OK
    }
}

// The start of a problem into `place`.
#[unsafe(no_mangle)]
pub extern "C" fn matcher_start(problem: &[u8], place: &mut [u64]) -> u32
    ensures { StartExport problem.now place.old place.new result }
{
    match Place::start(problem) {
        Ok(first) => give_start(place, first),
        Err(refusal) => refusal_code(refusal),
    }
}

// The row of a Found into `words`, and the number of the answer.
fn give_row(words: &mut [u64], answer: Answer) -> u32
    requires { place_words ≤ length words.old }
    ensures { RowTold answer words.old words.new result }
{
    match answer {
        Answer::Found(row) => {
            put_place(words, Place::at(row));
            FOUND
        }
        Answer::Paused => PAUSED,
        Answer::End => END,
    }
}

// An answer that is no refusal: the place is moved and the row of a Found given, where the row buffer has room for a row.
fn give_answer(place: &mut [u64], row: &mut [u64], searched: Searched) -> u32
    requires { place_words ≤ length place.old }
    ensures { Given (reply_with searched.answer (value_of searched.place)) place.old row.old place.new row.new result }
{
    if row.len() < PLACE_WORDS {
        return refusal_code(Refusal::BufferTooShort);
    }
    put_place(place, searched.place);
    give_row(row, searched.answer)
}

// A search call from the place in `place`, which is moved; the row of a Found goes into `row`.
#[unsafe(no_mangle)]
pub extern "C" fn matcher_search(problem: &[u8], place: &mut [u64], row: &mut [u64], n: u32) -> u32
    ensures { SearchExport problem.now n place.old row.old place.new
        row.new result }
{
    match search(problem, place_of(place), n) {
        Ok(searched) => give_answer(place, row, searched),
        Err(refusal) => refusal_code(refusal),
    }
}

// How many bytes were written into `written`, if any were.
fn give_length(answer: Result<usize, Refusal>, written: &mut usize)
    ensures { written.new ≡ length_after written.old (answer_of answer) }
{
    if let Ok(n) = answer {
        *written = n;
    }
}

// The text of a row at the front of `out`, and its length into `written`.
#[unsafe(no_mangle)]
pub extern "C" fn matcher_write(
    problem: &[u8],
    row: &[u64],
    out: &mut [u8],
    written: &mut usize,
) -> u32
    ensures { WriteExport problem.now row.now out.old written.old
        out.new written.new result }
{
    let answer = write(problem, place_of(row), out);
    give_length(answer, written);
    write_code(answer)
}

// The problem with the longest list for n nodes at the front of `out`, and its length into `written`.
#[unsafe(no_mangle)]
pub extern "C" fn matcher_longest(n: u32, out: &mut [u8], written: &mut usize) -> u32
    ensures { LongestExport n out.old written.old out.new written.new result }
{
    let answer = write_longest(n, out);
    give_length(answer, written);
    write_code(answer)
}

// Whether the text is a solution's.
#[unsafe(no_mangle)]
pub extern "C" fn matcher_check(problem: &[u8], text: &[u8]) -> u32
    ensures { CheckExport problem.now text.now result }
{
    check_code(check(problem, text))
}
