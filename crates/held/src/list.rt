// A whole list of 32 calls, made by one function. What is asked for has 4 bytes for each call, its allowance; calls that are not asked for
// are made with 0.
use calls::{Ran, run};
use lines::output::bad;
use refusal::Refusal;
use std::io::Result as Written;
use words::ROW_WORDS;

const CALLS: usize = 32;

// So many rows, as many as there are, a line for each.
fn print_rows(rt: &impl Print, rows: &[u64], n: usize) -> Written<()> {
    for row in rows.chunks_exact(ROW_WORDS).take(n) {
        if let Some((last, words)) = row.split_last() {
            for word in words {
                print!(rt; "{word} ")?;
            }
            println!(rt; "{last}")?;
        }
    }
    Ok(())
}

fn print_ran(rt: &impl Print, ran: Result<Ran, Refusal>, rows: &[u64]) -> Written<()> {
    match ran {
        Err(refusal) => println!(rt; "refused {}", refusal.number()),
        Ok(ran) => {
            let ended = if ran.ended { "ended" } else { "not ended" };
            println!(rt; "found {}, {ended}", ran.found)?;
            print_rows(rt, rows, ran.found)
        }
    }
}

pub fn show_list(rt: &impl Print, label: &[u8], problem: &[u8], asked: &[u8]) -> Written<()> {
    let (asked, rest) = asked.as_chunks::<4>();
    if !rest.is_empty() || CALLS < asked.len() {
        return bad(rt, label);
    }
    let mut allowances = [0u32; CALLS];
    for (allowance, bytes) in allowances.iter_mut().zip(asked) {
        *allowance = u32::from_be_bytes(*bytes);
    }
    let mut rows = [0u64; CALLS * ROW_WORDS];
    let ran = run(problem, &allowances, &mut rows);
    rt.write_all(label)?;
    println!(rt; "")?;
    print_ran(rt, ran, &rows)
}
