//! The console: reads the lines of a job, performs them, and answers.
#![tactic(auto)]

pub mod answer;
pub mod choice;
pub mod line;
pub mod problem;
pub mod session;
pub mod tally;
#[cfg(test)]
mod tests;
pub mod words;
