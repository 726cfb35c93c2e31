// What document 01's program `readings` prints: its lines, one after the other, each made in a buffer.
#![tactic(auto)]

ghost use Rattle.std.specs.Prelude.{◌+◌, ◌*◌, ◌≤◌, [], ◌∷◌, ◌++◌, length};
ghost use Rattle.meaning.specs.Program.{decimal, solution_line};
ghost use Rattle.ascii.specs.Put.{Put};
ghost use Rattle.listing.specs.Listing.{Begins, Counted, FoundLine, LastLine, NextLine, line_room};

use ascii::{put_bytes, put_number, put_word};
use finding::{Finding, find};
use places::Place;
use seeking::Answer;

// "calls with n = 1,000,000"
const ALLOWANCE: u32 = 1000000;

// "`more 1000` in place of a 1,001st"
const MOST: u32 = 1000;

// Room for every text: the bytes of an input and 4 for each metavariable.
const LARGEST_WRITTEN: usize = 4224;

// Room for every line: a word, ten digits, a colon, two digits for each byte of a text, and a line feed.
pub const ROOM: usize = 8469;

// Where the list of lines stands that goes on: the place of the next search call, and the solutions so far.
#[derive(Clone, Copy)]
pub struct Listing {
    pub place: Place,
    pub count: u32,
}

// A line, by how long it is, and how the list stands after it, if it goes on.
#[derive(Clone, Copy)]
pub struct Line {
    pub length: usize,
    pub then: Option<Listing>,
}

impl Listing {
    // Of a problem that is refused the place does not matter: the first search call is refused too.
    pub fn start(problem: &[u8]) -> Listing
        ensures { Begins problem.now result }
    {
        Listing {
            place: Place::start(problem).unwrap_or(Place::past_last()),
            count: 0,
        }
    }
}

// A word and a number.
fn put_count(word: &[u8], n: u32, out: &mut [u8]) -> usize
    requires { length word.now + 10 ≤ length out.old }
    ensures { Counted word.now n out.old out.new result }
{
    let end = put_word(word, 0, out);
    put_number(n, end, out)
}

fn count_line(word: &[u8], n: u32, out: &mut [u8]) -> usize
    requires { length word.now + 11 ≤ length out.old }
    ensures { Put 0 (word.now ++ (decimal n ++ (10 ∷ []))) out.old out.new result }
{
    let end = put_count(word, n, out);
    put_word(b"\n", end, out)
}

fn solution_line(k: u32, text: &[u8], out: &mut [u8]) -> usize
    requires { 21 + 2 * length text.now ≤ length out.old }
    ensures { Put 0 (solution_line k text.now) out.old out.new result }
{
    let colon = put_count(b"solution ", k, out);
    let digits = put_word(b":", colon, out);
    let end = put_bytes(text, digits, out);
    put_word(b"\n", end, out)
}

fn last_line(word: &[u8], n: u32, out: &mut [u8]) -> Line
    requires { length word.now + 11 ≤ length out.old }
    ensures { LastLine word.now n out.new result }
{
    Line {
        length: count_line(word, n, out),
        then: None,
    }
}

// With the text of what was found, and the place after it.
fn found_line(at: Listing, next: Place, text: &[u8], out: &mut [u8]) -> Line
    requires { 21 + 2 * length text.now ≤ length out.old }
    ensures { FoundLine at next text.now out.new result }
{
    if MOST <= at.count {
        return last_line(b"more ", at.count, out);
    }
    let count = at.count + 1;
    Line {
        length: solution_line(count, text, out),
        then: Some(Listing { place: next, count }),
    }
}

pub fn next_line(problem: &[u8], at: Listing, out: &mut [u8]) -> Line
    requires { line_room ≤ length out.old }
    ensures { NextLine problem.now at out.new result }
{
    let mut text = [0u8; LARGEST_WRITTEN];
    match find(problem, at.place, ALLOWANCE, &mut text) {
        Err(refusal) => last_line(b"refused ", u32::from(refusal.number()), out),
        Ok(Finding { searched, length }) => match searched.answer {
            Answer::Found(_) => found_line(at, searched.place, &text[..length], out),
            Answer::End => last_line(b"end ", at.count, out),
            Answer::Paused => last_line(b"paused ", at.count, out),
        },
    }
}
