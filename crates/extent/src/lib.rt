//! Kinds of extents: what covers what, what meets what, and which spots they hold. Plane boxes and intervals.
#![tactic(auto)]

pub mod entry;
pub mod extent;
pub mod interval;
pub mod plane_box;
