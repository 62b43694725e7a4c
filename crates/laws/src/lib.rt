//! Laws over ticks and runs: the order of steps leaves no trace.
#![tactic(auto)]

pub mod promises;
