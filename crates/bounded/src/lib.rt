// A list of at most N items that lies in place, with no heap.
#![tactic(auto)]

pub mod equal;
pub mod full;
pub mod keep;
pub mod keyed;
pub mod list;
pub mod place;
pub mod work;
