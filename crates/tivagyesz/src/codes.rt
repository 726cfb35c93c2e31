// The number of each answer: a refusal is document 01's number, an answer that is none is above every refusal, and no two answers share
// one. `include/matcher.h` has the same names.
ghost use Rattle.std.specs.Prelude.{◌≡◌};
ghost use Rattle.refusal.specs.Number.{number};
ghost use Rattle.copying.specs.Answered.{answer_of};
ghost use Rattle.checking.specs.Checking as checked;
ghost use Rattle.tivagyesz.specs.Exported.{check_code, write_code};

use checking::Verdict;
use refusal::Refusal;

pub const OK: u32 = 0;

pub const FOUND: u32 = 256;

pub const PAUSED: u32 = 257;

pub const END: u32 = 258;

const YES: u32 = 259;

const NO: u32 = 260;

pub fn refusal_code(refusal: Refusal) -> u32
    ensures { result ≡ number refusal }
{
    u32::from(refusal.number())
}

// The number of a writer's answer.
pub fn write_code(answer: Result<usize, Refusal>) -> u32
    ensures { result ≡ write_code (answer_of answer) }
{
    match answer {
        Ok(_) => OK,
        Err(refusal) => refusal_code(refusal),
    }
}

pub fn check_code(answer: Result<Verdict, Refusal>) -> u32
    ensures { result ≡ check_code (checked.answer_of answer) }
{
    match answer {
        Ok(Verdict::Yes) => YES,
        Ok(Verdict::No) => NO,
        Err(refusal) => refusal_code(refusal),
    }
}
