// The rights of one path: subjects, the class rule, the patterns of execute bits, flattened requirements.
#![tactic(auto)]

pub mod class;
pub mod directory;
pub mod execute;
pub mod form;
pub mod mode;
pub mod path;
pub mod pattern;
pub mod subject;
