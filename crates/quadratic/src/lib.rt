//! The theory of Guttman's quadratic split: definitions and laws, with no code.
#![tactic(auto)]
