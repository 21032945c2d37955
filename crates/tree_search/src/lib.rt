//! The walk of a look-up over rows of entries, safe and ending whatever the rows hold.
#![tactic(auto)]

pub mod query;
pub mod search;
pub mod view;
