// An open search, held from call to call. What is asked for has 5 bytes for each call: 1 where the call is handed the byte 07 in place of
// the problem, which is refused (2), and else 0; and an allowance of 4 bytes.
ghost use Rattle.matcher.specs.Opened.{OpenAnswers};

use lines::output::bad;
use masks::NodeSet;
use matcher::{Answer, Moved, OpenSearch, Place, search_open};
use refusal::Refusal;
use std::io::Result as Written;

// The open search is lent to the call.
pub fn lend(kept: OpenSearch, problem: &[u8], n: u32) -> Moved
    ensures { OpenAnswers problem.now kept.place n result.search.place result.answer }
{
    let mut search = kept;
    let answer = search_open(&mut search, problem, n);
    Moved { search, answer }
}

fn print_sets(rt: &impl Print, sets: &[NodeSet]) -> Written<()> {
    for set in sets {
        for word in set.words {
            print!(rt; " {word}")?;
        }
    }
    Ok(())
}

fn print_place(rt: &impl Print, place: Place) -> Written<()> {
    print!(rt; "holds")?;
    if place.past {
        println!(rt; " past the last")
    } else {
        print_sets(rt, &place.sets)?;
        println!(rt; "")
    }
}

fn print_answer(rt: &impl Print, answer: Result<Answer, Refusal>) -> Written<()> {
    match answer {
        Err(refusal) => print!(rt; "refused {}", refusal.number())?,
        Ok(Answer::Found(row)) => {
            print!(rt; "found")?;
            print_sets(rt, &row)?;
        }
        Ok(Answer::End) => print!(rt; "end")?,
        Ok(Answer::Paused) => print!(rt; "paused")?,
    }
    print!(rt; ", ")
}

fn show_from<F: Fn(OpenSearch, &[u8], u32) -> Moved>(
    rt: &impl Print,
    call: F,
    start: Place,
    problem: &[u8],
    calls: &[[u8; 5]],
) -> Written<()>
    requires { F.IsAlwaysCallable call }
{
    let mut kept = OpenSearch::at(start);
    print_place(rt, start)?;
    for [other, a, b, c, d] in calls {
        let n = u32::from_be_bytes([*a, *b, *c, *d]);
        let moved = call(kept, if *other == 0 { problem } else { b"\x07" }, n);
        print_answer(rt, moved.answer)?;
        print_place(rt, moved.search.place)?;
        kept = moved.search;
    }
    Ok(())
}

// The calls are made by `call`, which is handed the open search and hands it back.
pub fn show_held<F: Fn(OpenSearch, &[u8], u32) -> Moved>(
    rt: &impl Print,
    call: F,
    label: &[u8],
    problem: &[u8],
    calls: &[u8],
) -> Written<()>
    requires { F.IsAlwaysCallable call }
{
    let (calls, rest) = calls.as_chunks::<5>();
    if !rest.is_empty() {
        return bad(rt, label);
    }
    rt.write_all(label)?;
    println!(rt; "")?;
    match Place::start(problem) {
        Err(refusal) => println!(rt; "refused {}", refusal.number()),
        Ok(start) => show_from(rt, call, start, problem, calls),
    }
}
