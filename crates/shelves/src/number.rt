// The number of a node, which is the number of its slot: 0 to 4,095.
ghost use Rattle.std.specs.Prelude.{◌≡◌, ◌<◌, ◌≤◌, ◌++◌, Some, MatchResult, codes, decimal};

use crate::shelf::MAX_SLOTS;
use std::error::Error;
use std::fmt;

#[derive(Clone, Copy, Debug, PartialEq, Eq, PartialOrd, Ord, Hash)]
pub struct NodeNumber {
    number: u16,
    ghost small: { number < 4096 },
}

// A number that no node has: 4,096 or more.
#[derive(Clone, Copy, Debug, PartialEq, Eq, Hash)]
pub struct NoSuchNode(pub u16);

impl TryFrom<u16> for NodeNumber {
    type Error = NoSuchNode;

    ghost try_from_gives = { λ number r. MatchResult r (λ n. n.number ≡ number) (λ e. (e.0 ≡ number) × (4096 ≤ number)) };

    fn try_from(number: u16) -> Result<NodeNumber, NoSuchNode> {
        if usize::from(number) < MAX_SLOTS {
            Ok(NodeNumber { number })
        } else {
            Err(NoSuchNode(number))
        }
    }
}

// The number of the node's slot.
impl From<NodeNumber> for usize {
    ghost from_gives = { λ node slot. slot ≡ node.number };

    fn from(node: NodeNumber) -> usize {
        usize::from(node.number)
    }
}

impl fmt::Display for NoSuchNode {
    ghost output = { λ e. Some (codes "no node has number " ++ decimal e.0) };

    fn fmt<W: fmt::Write>(&self, f: &mut fmt::Formatter<W>) -> fmt::Result {
        write!(f, "no node has number {}", self.0)
    }
}

impl Error for NoSuchNode {}
