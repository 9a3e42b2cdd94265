// The eight patterns of execute bits, and the clauses that say who may search.
ghost use Rattle.std.specs.Prelude.{◌≡◌, ◌<◌, [], slice_index_or};
ghost use Rattle.rights.specs.Patterns.{place, rows, Agrees};

use crate::execute::Execute;

// A literal of a clause before its number is put in: positive is "user is u" or "in g",
// negative "user is not u" or "not in g".
#[derive(Clone, Copy, PartialEq, Eq, Debug)]
pub enum Sign {
    Positive,
    Negative,
}

// A clause of a pattern: it holds where one of its literals does.
#[derive(Clone, Copy, PartialEq, Eq, Debug)]
pub struct Shape {
    pub user: Option<Sign>,
    pub group: Option<Sign>,
}

const EMPTY: Shape = Shape {
    user: None,
    group: None,
};

const NOT_OWNER: Shape = Shape {
    user: Some(Sign::Negative),
    group: None,
};

const OWNER: Shape = Shape {
    user: Some(Sign::Positive),
    group: None,
};

const OWNER_OR_MEMBER: Shape = Shape {
    user: Some(Sign::Positive),
    group: Some(Sign::Positive),
};

const OWNER_OR_NOT_MEMBER: Shape = Shape {
    user: Some(Sign::Positive),
    group: Some(Sign::Negative),
};

const MEMBER: Shape = Shape {
    user: None,
    group: Some(Sign::Positive),
};

const NOT_MEMBER: Shape = Shape {
    user: None,
    group: Some(Sign::Negative),
};

// By the bits of owner, group and others, from 000 to 111.
const CLAUSES: [&[Shape]; 8] = [
    &[EMPTY],
    &[NOT_OWNER, NOT_MEMBER],
    &[NOT_OWNER, MEMBER],
    &[NOT_OWNER],
    &[OWNER],
    &[OWNER_OR_NOT_MEMBER],
    &[OWNER_OR_MEMBER],
    &[],
];

impl Execute {
    // The three bits as a number, for the table alone.
    fn place(self) -> usize
        ensures value { result ≡ place self }
        ensures low { result < 8 }
    {
        4 * usize::from(self.owner) + 2 * usize::from(self.group) + usize::from(self.others)
    }

    // The clauses of the pattern, in order.
    pub fn clauses(self) -> &'static [Shape]
        ensures row { result.now ≡ slice_index_or rows (place self) [] }
        ensures agrees { Agrees self result.now }
    {
        CLAUSES[self.place()]
    }
}
