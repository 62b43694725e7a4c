//! Declarations of variables: what can be declared, how declarations are read, and whether their owners are threads of the program.
#![tactic(auto)]

pub mod declaration;
pub mod list;
pub mod program;
pub mod reading;
#[cfg(test)]
mod tests;
