//! Tests of the listing's text.
#![tactic(auto)]

#[cfg(test)]
mod refused;
#[cfg(test)]
mod taken;
