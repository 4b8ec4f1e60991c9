// Line files: their reader, and the work of the programs `linerun` and `syncs` (01, "Line files and the two programs").
#![tactic(auto)]

pub mod reader;
pub mod running;
mod scanner;
pub mod scanning;
