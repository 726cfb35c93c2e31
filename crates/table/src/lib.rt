// The token tables of a problem: any bytes in, document 01's refusal or the problem's tokens out.
#![tactic(auto)]

mod answer;
mod limit;
mod problem;

pub use answer::Read;
pub use limit::TABLE_ROOM;
pub use problem::read;
