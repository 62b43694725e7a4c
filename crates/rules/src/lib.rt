//! The language of programs and the rules of its execution: definitions, the types that the code shares with them, and which variables a thread reads and sets.
#![tactic(auto)]

pub mod faults;
pub mod program;
pub mod promises;
pub mod refusals;
pub mod scopes;
