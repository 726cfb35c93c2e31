// The archive for programs in C, declared in include/matcher.h: each function of `tivagyesz` under its own name and with its own contract.
// It is a crate of its own, since no crate can stand on an archive and `promises` stands on `tivagyesz`; `tools/staticlib` builds it.
#![tactic(auto)]

ghost use Rattle.tivagyesz.specs.Exported.{StartExport, SearchExport, WriteExport, LongestExport, CheckExport};

// The start of a problem into `place`.
#[unsafe(no_mangle)]
pub extern "C" fn matcher_start(problem: &[u8], place: &mut [u64]) -> u32
    ensures { StartExport problem.now place.old place.new result }
{
    tivagyesz::matcher_start(problem, place)
}

// A search call from the place in `place`, which is moved; the row of a Found goes into `row`.
#[unsafe(no_mangle)]
pub extern "C" fn matcher_search(problem: &[u8], place: &mut [u64], row: &mut [u64], n: u32) -> u32
    ensures { SearchExport problem.now n place.old row.old place.new
        row.new result }
{
    tivagyesz::matcher_search(problem, place, row, n)
}

// The text of a row at the front of `out`, and its length into `written`.
#[unsafe(no_mangle)]
pub extern "C" fn matcher_write(
    problem: &[u8],
    row: &[u64],
    out: &mut [u8],
    written: &mut usize,
) -> u32
    ensures { WriteExport problem.now row.now out.old written.old
        out.new written.new result }
{
    tivagyesz::matcher_write(problem, row, out, written)
}

// The problem with the longest list for n nodes at the front of `out`, and its length into `written`.
#[unsafe(no_mangle)]
pub extern "C" fn matcher_longest(n: u32, out: &mut [u8], written: &mut usize) -> u32
    ensures { LongestExport n out.old written.old out.new written.new result }
{
    tivagyesz::matcher_longest(n, out, written)
}

// Whether the text is a solution's.
#[unsafe(no_mangle)]
pub extern "C" fn matcher_check(problem: &[u8], text: &[u8]) -> u32
    ensures { CheckExport problem.now text.now result }
{
    tivagyesz::matcher_check(problem, text)
}
