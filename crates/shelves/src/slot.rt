// Slots: the places of a shelf, each empty or with a node.
use crate::entry::Entry;

// A node of the tree with its stored requirement, which is not to be believed while it is stale.
#[derive(Clone, Copy)]
pub struct Node<F> {
    pub entry: Entry,
    // A flag beside the requirement, which stays stored while it is stale.
    pub stale: bool,
    pub requirement: F,
}

// A slot is empty, or has a node.
pub type Slot<F> = Option<Node<F>>;
