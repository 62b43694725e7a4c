//! Evaluates expressions: postfix commands over a stack of values.
#![tactic(auto)]

pub mod evaluation;
pub mod limits;
pub mod promises;
pub mod rate;
pub mod refusal;
pub mod scope;
#[cfg(test)]
mod tests;
