//! The theory of trees in rows of lent memory: which rows a tree takes, what is read out of them, and what a change of one row leaves.
#![tactic(auto)]
