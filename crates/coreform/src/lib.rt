// The core form of a rule in the book, written once for each place and polarity.
#![tactic(auto)]

pub mod cookbook;
pub mod draft;
pub mod form;
pub mod numbers;
pub mod recipe;
pub mod writing;
