// Rows and places in words. A row's are those of each function's node set; a place's are these, then 0 for a row or 1 for past the last. Any
// words may be handed in: a place stands at their front.
#![tactic(auto)]

ghost use Rattle.std.specs.Prelude.{◌≡◌, ◌+◌, ◌≤◌, length, take, drop};
ghost use Rattle.meaning.specs.Limits.{max_functions};
ghost use Rattle.masks.specs.Sets.{mask, masks_in, word_count, words_of};
ghost use Rattle.places.specs.Places.{value_of};
ghost use Rattle.words.specs.Storing.{PutRow, PutWords};
ghost use Rattle.words.specs.Words.{mask_in, masks_from, nowhere, place_of_words, place_words, placed, row_words};

use masks::NodeSet;
use places::Place;

// How many words the sets of a row have: those of one for each function. In a place the last word comes after them.
pub const ROW_WORDS: usize = Place::MAX_FUNCTIONS * NodeSet::WORDS;

pub const PLACE_WORDS: usize = ROW_WORDS + 1;

// Past the last no set has a node, so that this names no place of any problem.
fn nowhere() -> Place
    ensures { value_of result ≡ nowhere }
{
    let last = NodeSet {
        words: [0, 0, 0, 1],
    };
    Place {
        sets: [last; Place::MAX_FUNCTIONS],
        past: true,
    }
}

// The set whose words begin at word `at`.
fn set_at(words: &[u64], at: usize) -> NodeSet
    requires { at + word_count ≤ length words.now }
    ensures { mask result ≡ mask_in (take word_count (drop at words.now)) }
{
    let mut set = NodeSet::none();
    set.words.copy_from_slice(&words[at..at + NodeSet::WORDS]);
    set
}

// The sets at the front of the words.
fn sets_in(words: &[u64]) -> [NodeSet; Place::MAX_FUNCTIONS]
    requires { place_words ≤ length words.now }
    ensures { masks_in result ≡ masks_from max_functions words.now }
{
    let mut sets = [NodeSet::none(); Place::MAX_FUNCTIONS];
    for (k, set) in sets.iter_mut().enumerate() {
        *set = set_at(words, k * NodeSet::WORDS);
    }
    sets
}

// The place that words begin with. Words that are no place are "no such place" (16) of every problem.
pub fn place_of(words: &[u64]) -> Place
    ensures { value_of result ≡ place_of_words words.now }
{
    if words.len() < PLACE_WORDS {
        return nowhere();
    }
    match words[ROW_WORDS] {
        0 => Place {
            sets: sets_in(words),
            past: false,
        },
        1 => Place {
            sets: sets_in(words),
            past: true,
        },
        _ => nowhere(),
    }
}

// The words of a set from word `at` on; the others stay as they are.
fn put_set(words: &mut [u64], at: usize, s: NodeSet)
    requires { at + word_count ≤ length words.old }
    ensures { PutWords at word_count (words_of (mask s)) words.old words.new }
{
    words[at..at + NodeSet::WORDS].copy_from_slice(&s.words);
}

// The words of a row's sets from word `at` on; the others stay as they are.
pub fn put_row(words: &mut [u64], at: usize, row: [NodeSet; Place::MAX_FUNCTIONS])
    requires { at + row_words ≤ length words.old }
    ensures { PutRow at (masks_in row) words.old words.new }
{
    for (k, set) in row.iter().enumerate() {
        put_set(words, at + k * NodeSet::WORDS, *set);
    }
}

// The words of a place at the front; the later ones stay as they are.
pub fn put_place(words: &mut [u64], place: Place)
    requires { place_words ≤ length words.old }
    ensures { words.new ≡ placed words.old (value_of place) }
{
    put_row(words, 0, place.sets);
    words[ROW_WORDS] = u64::from(place.past);
}
