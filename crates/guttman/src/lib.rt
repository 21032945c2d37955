//! The theory of the R-tree: what a tree is, what insertion and deletion make of it, what a walk down it finds, and the laws of these,
//! with no memory in sight.
#![tactic(auto)]
