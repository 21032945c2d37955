//! One scene painted on every panel: the frames are the same, byte by byte.
#![tactic(auto)]

#[cfg(test)]
mod tests;
