//! The theory of repainting: which tiles meet a box, what a list of found numbers makes of a drawing, and what handing a tile
//! down does to a picture.
#![tactic(auto)]
