//! Loading accepts exactly the valid programs.
#![tactic(auto)]

pub mod promises;
