// The conjunctive form: a list of clauses, each of which must hold of the subject.
#![tactic(auto)]

pub mod asked;
pub mod clause;
pub mod clauses;
pub mod form;
pub mod record;
pub mod rules;
