// The disjunctive form: user lines and perhaps an open line, of which one must admit the subject.
#![tactic(auto)]

pub mod form;
pub mod record;
