// The plain types of a translation, and the definitions of the construction.
#![tactic(auto)]

pub mod items;
pub mod nodes;
