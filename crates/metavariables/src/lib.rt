// Which metavariables occur, and how: refusal 13, and whether a letter is used both ways, look at nothing else.
#![tactic(auto)]

ghost use Rattle.std.specs.Prelude.{◌≡◌, ◌<◌};
ghost use Rattle.meaning.specs.Limits.{metavariable_count};
ghost use Rattle.metavariables.specs.Survey.{has, Joined, Surveyed, meets, count};

use tokens::token::{payload, tag};

// "number 0 to 31"
pub const METAVARIABLES: u32 = 32;

// "13 over 8 functions"
pub const MAX_FUNCTIONS: usize = 8;

// Metavariable m is bit m.
#[derive(Clone, Copy)]
pub struct Occurring {
    pub functions: u32,
    pub plain: u32,
}

// The set with m as well, where the test is yes; a number that no metavariable has adds nothing.
pub fn joined(set: u32, test: bool, m: u64) -> u32
    ensures { Joined set test m result }
{
    if test && m < u64::from(METAVARIABLES) {
        set | (1u32 << m)
    } else {
        set
    }
}

pub fn survey(ps: &[u64]) -> Occurring
    ensures { Surveyed ps.now result }
{
    let mut functions = 0u32;
    let mut plain = 0u32;
    for x in ps {
        functions = joined(functions, tag(*x) == 6, payload(*x));
        plain = joined(plain, tag(*x) == 5, payload(*x));
    }
    Occurring { functions, plain }
}

pub fn in_set(set: u32, m: u32) -> bool
    requires { m < 32 }
    ensures { result ≡ has set m }
{
    (set >> m) % 2 == 1
}

// Whether a metavariable stands both as a function and alone (T-09).
pub fn both_ways(functions: u32, plain: u32) -> bool
    ensures { result ≡ meets metavariable_count functions plain }
{
    functions & plain != 0
}

// How many functions there are (13).
pub fn function_count(functions: u32) -> usize
    ensures { result ≡ count metavariable_count functions }
{
    functions.count_ones() as usize
}

// How many of the set have a smaller number than m: the place of m among them, in ascending order.
pub fn rank(set: u32, m: u32) -> usize
    requires { m < 32 }
    ensures { result ≡ count m set }
{
    (set % (1u32 << m)).count_ones() as usize
}
