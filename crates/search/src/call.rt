// One search call, from any bytes, any place and any allowance.
ghost use Rattle.masks.specs.Sets.{masks_in};
ghost use Rattle.search.specs.Calling.{Callable, RowThere, Sought, Placed, Answers};

use places::{Named, Place, named_by};
use prepare::{Prepared, prepare_lent};
use refusal::Refusal;
use rows::Functions;
use seeking::{Fixed, Searched, ended};
use table::TABLE_ROOM;

// From a row of the problem on.
fn from_row(
    prepared: &Prepared,
    functions: Functions,
    place: Place,
    n: u32,
    scratch: &mut [u64],
) -> Searched
    requires callable { Callable prepared.now scratch.old }
    requires row_there { RowThere prepared.now functions place }
    ensures { Sought prepared.now functions.entry (masks_in place.sets) n result }
{
    let fixed = Fixed {
        tables: prepared.tables,
        functions,
        first: functions.first_row(),
    };
    fixed.seek(place.sets, n, scratch)
}

// "15 n is 0; 16 no such place", and else from the place on.
#[tactic(auto, using(crate::proofs::CallLaws::placing))]
fn from_place(
    prepared: &Prepared,
    place: Place,
    n: u32,
    scratch: &mut [u64],
) -> Result<Searched, Refusal>
    requires { Callable prepared.now scratch.old }
    ensures { Placed prepared.now place n result }
{
    if n == 0 {
        return Err(Refusal::NoAllowance);
    }
    match named_by(place, prepared.functions)? {
        Named::Past => Ok(ended()),
        Named::Row(functions) => Ok(from_row(prepared, functions, place, n, scratch)),
    }
}

// A call on any bytes, place and allowance: document 01's answer, with the place that it leaves. "A refusal returns its number only. The output
// buffer and open search stay": the place is passed by value, and stays as the caller has it.
#[tactic(auto, using(crate::proofs::CallLaws::searching))]
pub fn search(problem: &[u8], place: Place, n: u32) -> Result<Searched, Refusal>
    ensures { Answers problem.now place n result }
{
    let mut ps = [0u64; TABLE_ROOM];
    let mut es = [0u64; TABLE_ROOM];
    let mut ns = [0u64; TABLE_ROOM];
    let mut fs = [0u64; TABLE_ROOM];
    let mut scratch = [0u64; TABLE_ROOM];
    let prepared = prepare_lent(problem, &mut ps, &mut es, &mut ns, &mut fs)?;
    from_place(&prepared, place, n, &mut scratch)
}
