//! Tests of the surfaces in lent memory: bytes and planes.
#![tactic(auto)]

#[cfg(test)]
mod tests;
