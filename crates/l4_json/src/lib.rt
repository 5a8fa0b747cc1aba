//! Lines of JSON: one object for each line that the program prints.
#![tactic(auto)]

pub mod lines;
pub mod rows;
pub mod scripts;
pub mod steps;
mod strings;
