// The paced line: its record, the tests for 9, opening, the tick, closing (01, "The tick", "Numbers given instead of bits").
#![tactic(auto)]

mod block;
mod closing;
pub mod counts;
mod opening;
mod queue;
pub mod record;
mod tests;
pub mod ticking;
