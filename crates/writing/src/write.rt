// Writing the text of a row, from any bytes and any row.
ghost use Rattle.search.specs.Calling.{Callable};
ghost use Rattle.composing.specs.Composing.{Writable};
ghost use Rattle.writing.specs.Writing.{TextWritten, RowCallable, RowWritten, NamedWritten, Writes};

use composing::entry::Plan;
use composing::text::{text_length, write_from};
use fit::judge;
use places::{Named, Place, named_by};
use prepare::{Prepared, prepare_lent};
use refusal::Refusal;
use table::TABLE_ROOM;

// "18 buffer too short" is known before the first byte is written.
fn write_text(es: &[u64], plan: Plan, out: &mut [u8]) -> Result<usize, Refusal>
    requires { Writable es.now plan }
    ensures { TextWritten es.now plan out.old out.new result }
{
    let n = text_length(es, plan);
    if out.len() < n {
        return Err(Refusal::BufferTooShort);
    }
    write_from(0, es, plan, out);
    Ok(n)
}

// "17 not a solution row", and else the text of the row.
fn write_row(
    prepared: &Prepared,
    row: Place,
    scratch: &mut [u64],
    out: &mut [u8],
) -> Result<usize, Refusal>
    requires { RowCallable prepared.now row scratch.old }
    ensures { RowWritten prepared.now row out.old out.new result }
{
    let sources = judge(&prepared.tables, row.sets, scratch).ok_or(Refusal::NotASolution)?;
    // The check takes an array in a literal from a variable alone.
    let nodes = prepared.tables.firsts.nodes;
    let sets = row.sets;
    let plan = Plan {
        occurring: prepared.occurring,
        nodes,
        row: sets,
        sources,
    };
    write_text(prepared.tables.nodes.tokens, plan, out)
}

// "16 no such row, past the last included"
fn write_named(
    prepared: &Prepared,
    row: Place,
    scratch: &mut [u64],
    out: &mut [u8],
) -> Result<usize, Refusal>
    requires { Callable prepared.now scratch.old }
    ensures { NamedWritten prepared.now row out.old out.new result }
{
    match named_by(row, prepared.functions)? {
        Named::Past => Err(Refusal::NoSuchPlace),
        Named::Row(_) => write_row(prepared, row, scratch, out),
    }
}

// The text of a row at the buffer's front, from any bytes and any row: no later byte changes, and on a refusal none does.
pub fn write(problem: &[u8], row: Place, out: &mut [u8]) -> Result<usize, Refusal>
    ensures { Writes problem.now row out.old out.new result }
{
    let mut ps = [0u64; TABLE_ROOM];
    let mut es = [0u64; TABLE_ROOM];
    let mut ns = [0u64; TABLE_ROOM];
    let mut fs = [0u64; TABLE_ROOM];
    let mut scratch = [0u64; TABLE_ROOM];
    let prepared = prepare_lent(problem, &mut ps, &mut es, &mut ns, &mut fs)?;
    write_named(&prepared, row, &mut scratch, out)
}
