// The squares of Table 20 that make or judge a unit: the caller's, the called side's, those of a unit that T-DATA.indication brings, awaited or not, and of user data.
#![tactic(auto)]

pub mod called;
pub mod calling;
pub mod received;
pub mod user;
