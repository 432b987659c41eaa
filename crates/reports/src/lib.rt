// Reports of timetables and refusals, byte for byte.
#![tactic(auto)]

mod buffer;
mod decimal;
mod lines;
pub mod report;
pub mod told;
