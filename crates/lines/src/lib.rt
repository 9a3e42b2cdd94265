// Lines of the disjunctive form: user lines in a table, and the open line.
#![tactic(auto)]

pub mod asks;
pub mod equal;
pub mod line;
pub mod others;
pub mod table;
