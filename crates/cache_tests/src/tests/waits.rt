use crate::waiting::{Pixel, Waiting};
use cache::store::Cache;
use std::process::Abort;
use std::test::Fail;
use surface::surface::Surface;

/// Gives the ink to all six tiles of a row through a cache, which has room for four. The cache is then let go, settled or not.
fn paint<S: Surface + Drop>(rt: &impl Abort, below: S, ink: u8, settle: bool) -> Result<(), Fail> {
    let mut pile = Cache::new(below);
    pile.run(0, 0, 96, ink as u16)?;
    if settle {
        pile.settle();
    }
    assert_eq!(rt; pile.read(95, 0)?, ink);
    Ok(())
}

/// Whether the surface took the ink in its first tiles, up to pixel `end`, and everywhere shows the ink `old`.
fn waits(rt: &impl Abort, surface: &Waiting, end: u16, ink: u8, old: u8) -> Result<(), Fail> {
    for x in 0..96u16 {
        assert_eq!(rt; surface.shows(x), Some(old));
        assert!(rt; (surface.read(x, 0)? == ink) == (x < end));
    }
    Ok(())
}

/// Two tiles of an unsettled row are poured, to make room for others, and wait below. A settle shows all of them.
#[test]
fn waits_below(rt: HostRuntime) -> Result<(), Fail> {
    let mut pixels = [Pixel { taken: 3, shown: 3 }; 96];
    let below = Waiting {
        pixels: &mut pixels,
    };
    paint(&rt, below, 5, false)?;
    let below = Waiting {
        pixels: &mut pixels,
    };
    waits(&rt, &below, 32, 5, 3)?;
    paint(&rt, below, 9, true)?;
    waits(
        &rt,
        &Waiting {
            pixels: &mut pixels,
        },
        96,
        9,
        9,
    )
}
