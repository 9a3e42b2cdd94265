// A shelf as a stranger would write one, a pile of five layers, lent memory, and tests over piles of several shapes.
#![tactic(auto)]

pub mod lent;
pub mod pile;
pub mod reversed;
#[cfg(test)]
mod tests;
