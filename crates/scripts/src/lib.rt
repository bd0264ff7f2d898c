// The parts of a script, made on a board's lists by value: calls, replays and reads, and what is printed of them.
#![tactic(auto)]

pub mod replays;
pub mod say;
pub mod script;
pub mod shown;
pub mod world;
