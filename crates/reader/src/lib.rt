//! Reads the statements of a program and checks them.
#![tactic(auto)]

mod blocks;
mod checker;
pub mod counts;
mod expression;
pub mod extents;
pub mod faults;
pub mod forms;
pub mod heads;
pub mod parts;
pub mod program;
pub mod reader;
pub mod scope;
