// The list of clauses inside the record.
use crate::clause::Clause;
use bounded::list::Bounded;

#[derive(Clone, Copy, PartialEq)]
pub struct Clauses {
    pub list: Bounded<Clause, 32>,
}
