//! Tests of the fresh painting, on small byte surfaces.
#![tactic(auto)]

#[cfg(test)]
mod tests;
