//! Shapes: which pixels they cover. It hands on the sizes, inks, tiles, refusals and the font, and the lines.
#![tactic(auto)]

pub use basics::{font, glyph, ink, refusal, size, tile};
pub use lines::line;

pub mod shape;
