//! What the other crates name: refusals, sheet sizes, tiles, inks and their colours, glyph codes and the font.
#![tactic(auto)]

pub mod font;
pub mod glyph;
pub mod ink;
pub mod refusal;
pub mod size;
pub mod tile;
