//! A tile cache over any surface: it holds back runs until the picture is settled.
#![tactic(auto)]

mod pour;
pub mod slot;
pub mod store;
