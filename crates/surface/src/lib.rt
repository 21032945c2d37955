//! What every surface means, and the byte surface.
#![tactic(auto)]

pub mod byte;
pub mod clip;
pub mod surface;
