// A third form, as a stranger would write one, and tests over all forms.
#![tactic(auto)]

pub mod form;
#[cfg(test)]
mod tests;
pub mod trail;
