// The free line: its record, the tests for 9, the run, opening (01, "The bit rule", "Numbers given instead of bits").
#![tactic(auto)]

mod cover;
mod free;
mod going;
pub mod record;
mod run;
mod search;
pub mod settings;
mod stretch;
mod tests;
pub mod window;
