// Lists of calls, made and printed: on an open search that is held from call to call, and by one function.
#![tactic(auto)]

pub mod list;
pub mod open;
