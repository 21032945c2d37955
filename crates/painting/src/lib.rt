//! The fresh painting of a list of shapes: which ink each pixel has, and painting all of it on any surface.
#![tactic(auto)]

pub mod lay;
pub mod scene;
pub mod whole;
