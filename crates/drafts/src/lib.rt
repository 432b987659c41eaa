// A draft of a net: five stages that take its entries, each with checks of its own.
#![tactic(auto)]

pub mod check;
pub mod entries;
pub mod fault;
pub mod numbers;
pub mod stage;
pub mod tables;
