use std::str::FromStr;

/// What the sheet is painted on.
#[derive(Clone, Copy)]
pub enum Panel {
    Byte,
    Plane,
    CachedByte,
    CachedPlane,
    TwiceCachedPlane,
}

/// No panel has the name.
#[derive(Clone, Copy)]
pub struct UnknownPanel;

impl FromStr for Panel {
    type Err = UnknownPanel;

    // The names stand again in the text of `Stop`: to write them there from a table would take a loop and a separator, for five words.
    fn from_str(name: &str) -> Result<Panel, UnknownPanel> {
        match name {
            "byte" => Ok(Panel::Byte),
            "plane" => Ok(Panel::Plane),
            "cached-byte" => Ok(Panel::CachedByte),
            "cached-plane" => Ok(Panel::CachedPlane),
            "twice-cached-plane" => Ok(Panel::TwiceCachedPlane),
            _ => Err(UnknownPanel),
        }
    }
}
