ghost use Rattle.std.specs.Prelude.{◌<◌, ◌≤◌};

use super::plain::{HIGH, PIXELS, Plain, WIDE, play, refuses};
use cache::store::Cache;
use plane::planes::PlaneSurface;
use std::process::Abort;
use std::test::Fail;
use surface::byte::ByteSurface;
use surface::surface::Surface;

/// Plays so many runs on a cache over the surface and settles it. It is then let go with what its slots still hold, so that
/// only the settle can have brought the inks down.
fn settled<S: Surface + Drop>(rt: &impl Abort, below: S, runs: u16) -> Result<Plain, Fail> {
    let mut pile = Cache::new(below);
    let plain = play(rt, &mut pile, runs)?;
    refuses(rt, &mut pile)?;
    pile.settle();
    plain.agrees(rt, &pile)?;
    Ok(plain)
}

/// Plays all but the last nine runs, and takes the surface out from below while the cache holds inks back.
fn taken_out<S: Surface + Drop>(rt: &impl Abort, below: S, runs: u16) -> Result<Plain, Fail> {
    let mut pile = Cache::new(below);
    let plain = play(rt, &mut pile, runs.saturating_sub(9))?;
    plain.agrees(rt, &pile.into_below())?;
    Ok(plain)
}

/// What is played on: a pile of so many caches, or one of two that is taken apart.
#[derive(Clone, Copy)]
enum Pile {
    Apart,
    One,
    Two,
    Three,
}

/// So many runs on a pile.
#[derive(Clone, Copy)]
struct Game {
    pile: Pile,
    runs: u16,
}

/// The bit of pixel i in a plane of 175 bytes from `start` on: a row of 40 pixels has no spare bit.
fn plane_bit(planes: &[u8; 700], start: usize, i: usize) -> u8
    requires { (i < 1400) × (start ≤ 525) }
    ensures { result < 2 }
{
    (planes[start + i / 8] >> (7 - i % 8)) % 2
}

/// The ink of pixel i in four such planes.
fn plane_ink(planes: &[u8; 700], i: usize) -> u8
    requires { i < 1400 }
{
    let low = plane_bit(planes, 0, i) + 2 * plane_bit(planes, 175, i);
    low + 4 * plane_bit(planes, 350, i) + 8 * plane_bit(planes, 525, i)
}

impl Game {
    /// Plays on the pile over the surface.
    // A branch for each pile, since each is a type of its own: a cache has the surface below as a type parameter.
    fn play<S: Surface + Drop>(self, rt: &impl Abort, below: S) -> Result<Plain, Fail> {
        match self.pile {
            Pile::Apart => taken_out(rt, Cache::new(below), self.runs),
            Pile::One => settled(rt, below, self.runs),
            Pile::Two => settled(rt, Cache::new(below), self.runs),
            Pile::Three => settled(rt, Cache::new(Cache::new(below)), self.runs),
        }
    }

    /// Whether the bytes below the pile then show the plain inks.
    // Two functions for bytes and planes: the surfaces are two types, and each shows its inks in a way of its own.
    fn over_bytes(self, rt: &impl Abort, bytes: &mut [u8; PIXELS]) -> Result<(), Fail> {
        let plain = self.play(rt, ByteSurface::new(bytes, WIDE, HIGH))?;
        assert!(rt; *bytes == plain.inks);
        Ok(())
    }

    /// Whether the planes below the pile then show the plain inks.
    fn over_planes(self, rt: &impl Abort, planes: &mut [u8; 700]) -> Result<(), Fail> {
        let plain = self.play(rt, PlaneSurface::new(planes, WIDE, HIGH))?;
        for (i, ink) in plain.inks.iter().enumerate() {
            assert_eq!(rt; plane_ink(planes, i), *ink);
        }
        Ok(())
    }
}

/// Plays on each pile up to each of the 20 settles of 320 runs, and without a run.
#[test]
fn piles_agree(rt: HostRuntime) -> Result<(), Fail> {
    let mut bytes = [7; PIXELS];
    let mut planes = [7; 700];
    for settles in 0..=20u16 {
        let runs = 16 * settles;
        for pile in [Pile::Apart, Pile::One, Pile::Two, Pile::Three] {
            let game = Game { pile, runs };
            game.over_bytes(&rt, &mut bytes)?;
            game.over_planes(&rt, &mut planes)?;
        }
    }
    Ok(())
}
