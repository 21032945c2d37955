//! What every surface does, whatever its memory holds.
use std::process::Abort;
use std::test::Fail;
use surface::surface::Surface;

/// A surface of one pixel takes an ink, and is settled.
pub fn takes<R: Abort, S: Surface>(rt: &R, s: &mut S, ink: u16) -> Result<(), Fail> {
    assert_eq!(rt; s.size(), (1, 1));
    assert_eq!(rt; s.read(0, 0)?, 0);
    s.run(0, 0, 1, ink)?;
    s.settle();
    assert_eq!(rt; u16::from(s.read(0, 0)?), ink);
    Ok(())
}

/// The last row of a surface of the largest sides takes ink 9.
pub fn takes_the_last_row<R: Abort, S: Surface>(rt: &R, s: &mut S) -> Result<(), Fail> {
    assert_eq!(rt; s.size(), (256, 256));
    s.run(0, 255, 256, 9)?;
    assert_eq!(rt; s.read(255, 254)?, 0);
    assert_eq!(rt; s.read(0, 255)?, 9);
    assert_eq!(rt; s.read(255, 255)?, 9);
    assert_eq!(rt; s.read(256, 255).map_err(u8::from), Err(30));
    assert_eq!(rt; s.run(1, 255, 256, 9).map_err(u8::from), Err(30));
    Ok(())
}

/// A surface without a pixel refuses.
pub fn has_no_pixel<R: Abort, S: Surface>(rt: &R, s: &mut S) {
    assert_eq!(rt; s.size(), (0, 0));
    assert_eq!(rt; s.read(0, 0).map_err(u8::from), Err(30));
    assert_eq!(rt; s.run(0, 0, 1, 1).map_err(u8::from), Err(30));
}

/// Sides of which one is outside 1 to 256.
pub const SIDES_OUTSIDE: [(u16, u16); 5] = [(0, 1), (1, 0), (257, 1), (1, 257), (65535, 65535)];

/// A surface of 3 by 2 pixels refuses to read outside.
pub fn refuses_outside<R: Abort, S: Surface>(rt: &R, s: &S) {
    for (x, y) in [(3, 0), (0, 2), (65535, 65535)] {
        assert_eq!(rt; s.read(x, y).map_err(u8::from), Err(30));
    }
}

/// Runs that a surface of 3 by 2 pixels refuses: x, y, length and ink.
const REFUSED: [(u16, u16, u16, u16); 9] = [
    (0, 0, 0, 1),
    (0, 0, 1, 16),
    (1, 0, 3, 1),
    (3, 0, 1, 1),
    (0, 2, 1, 1),
    (65535, 0, 1, 1),
    (1, 0, 65535, 1),
    (0, 65535, 1, 1),
    (0, 0, 1, 65535),
];

/// A surface of 3 by 2 pixels takes its first row, and refuses what does not fit.
pub fn refuses_runs<R: Abort, S: Surface>(rt: &R, s: &mut S) -> Result<(), Fail> {
    s.run(0, 0, 3, 5)?;
    for (x, y, n, ink) in REFUSED {
        assert!(rt; !s.accepts(x, y, n, ink));
        assert_eq!(rt; s.run(x, y, n, ink).map_err(u8::from), Err(30));
    }
    Ok(())
}
