// The checker: "takes a problem and a text, .. bound names free, and says yes or no". Each part of the decision is a function of its own:
// no metavariable that does not occur, the right kind of field for each, open just where no value is needed, and, if the problem has rows,
// each filled pattern equal to its expression.
#![tactic(auto)]

ghost use Rattle.std.specs.Prelude.{◌≡◌};
ghost use Rattle.meaning.specs.Entry.{check_call};
ghost use Rattle.checking.specs.Checking.{SomeTold, OpenJudged, FieldsJudged, Ground, Decidable, Met, Passed, CheckedText, answer_of};

use accept::{Standing, accept_lent};
use entries::{holed, kinds, known, needed, open_unneeded, unneeded_open};
use filled::filled;
use items::{TEXT_ROOM, read_text};
use refusal::Refusal;
use said::Said;
use table::TABLE_ROOM;

// The answer to a problem that is accepted and a text that is well formed. No bool: after a `?` one can be dropped without a warning.
#[derive(Clone, Copy, PartialEq, Eq)]
pub enum Verdict {
    Yes,
    No,
}

// "an open metavariable stands only in arguments of functions whose body has no hole", and "a metavariable that stands only in such
// arguments is open".
fn open_right(a: Standing, ts: &[u64], said: &Said) -> bool
    requires { SomeTold a ts.now said.now }
    ensures { OpenJudged a.entry ts.now said.now result }
{
    let need = needed(a.patterns, holed(ts, said));
    open_unneeded(said, need) && unneeded_open(said, a.occurring.plain, need)
}

// Whether the text has just the fields that the problem calls for.
fn fields_right(a: Standing, ts: &[u64], said: &Said) -> bool
    requires { SomeTold a ts.now said.now }
    ensures { FieldsJudged a.entry ts.now said.now result }
{
    known(said, a.occurring) && kinds(said, a.occurring) && open_right(a, ts, said)
}

// "each filled pattern equals its expression"; where shapes disagree none does, and where a letter is used both ways "the checker says no
// to every well-formed text" (T-09).
fn constraints_met(
    a: Standing,
    ts: &[u64],
    said: &Said,
    holes: &mut [u64],
    scratch: &mut [u64],
) -> bool
    requires { Decidable a ts.now said.now holes.old scratch.old }
    ensures { Met a.entry ts.now said.now result }
{
    let Some(faces) = a.faces else {
        return false;
    };
    filled(a.patterns, a.expressions, faces, ts, said, holes, scratch)
}

fn passes(a: Standing, ts: &[u64], said: &Said, holes: &mut [u64], scratch: &mut [u64]) -> bool
    requires { Decidable a ts.now said.now holes.old scratch.old }
    ensures { Passed a.entry ts.now said.now result }
{
    fields_right(a, ts, said) && constraints_met(a, ts, said, holes, scratch)
}

// 19, 20 and 27, and else yes or no.
fn check_text(a: Standing, text: &[u8]) -> Result<Verdict, Refusal>
    requires { Ground a }
    ensures { CheckedText a.entry text.now result }
{
    let mut ts = [0u64; TEXT_ROOM];
    let mut holes = [0u64; TEXT_ROOM];
    let mut scratch = [0u64; TABLE_ROOM];
    let read = read_text(text, &mut ts)?;
    if passes(a, &ts[..read.used], &read.said, &mut holes, &mut scratch) {
        Ok(Verdict::Yes)
    } else {
        Ok(Verdict::No)
    }
}

// Any bytes and any text: document 01's refusal, or yes or no.
pub fn check(problem: &[u8], text: &[u8]) -> Result<Verdict, Refusal>
    ensures { answer_of result ≡ check_call problem.now text.now }
{
    let mut patterns = [0u64; TABLE_ROOM];
    let mut expressions = [0u64; TABLE_ROOM];
    let mut faces = [0u64; TABLE_ROOM];
    let standing = accept_lent(problem, &mut patterns, &mut expressions, &mut faces)?;
    check_text(standing, text)
}
