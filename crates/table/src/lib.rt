//! The table of a program's statements: a row for each, by its number.
#![tactic(auto)]

pub mod promises;
pub mod rows;
