// Shelves: where slots lie, and layers of shelves over shelves.
#![tactic(auto)]

pub mod entry;
pub mod laws;
pub mod number;
pub mod pair;
pub mod scatter;
pub mod shelf;
pub mod slot;
pub mod table;
