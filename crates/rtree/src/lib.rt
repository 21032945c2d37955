//! An R-tree in rows of lent memory, by Guttman's rules.
#![tactic(auto)]

mod cut;
mod deal;
mod gather;
mod insert;
mod leaf;
mod node;
mod pick;
mod root;
mod row;
pub mod rows;
mod table;
pub mod tree;
mod waiting;
