ghost use Rattle.std.specs.Prelude.{◌≡◌};

use std::process::Abort;
use std::test::Fail;
use surface::surface::Surface;

/// The sides of the surfaces: three tiles by three, the last of each row and of each column cut off.
pub(super) const WIDE: u16 = 40;

pub(super) const HIGH: u16 = 35;

/// How many pixels they have.
pub(super) const PIXELS: usize = WIDE as usize * HIGH as usize;

/// What a call of `run` is given.
#[derive(Clone, Copy)]
struct Run {
    x: u16,
    y: u16,
    n: u16,
    ink: u16,
}

/// Runs that are empty, have no ink or leave the surface.
const REFUSED: [Run; 11] = [
    Run {
        x: 3,
        y: 3,
        n: 0,
        ink: 1,
    },
    Run {
        x: 40,
        y: 3,
        n: 0,
        ink: 1,
    },
    Run {
        x: 3,
        y: 3,
        n: 1,
        ink: 16,
    },
    Run {
        x: 3,
        y: 3,
        n: 1,
        ink: 65535,
    },
    Run {
        x: 40,
        y: 3,
        n: 1,
        ink: 1,
    },
    Run {
        x: 39,
        y: 3,
        n: 2,
        ink: 1,
    },
    Run {
        x: 0,
        y: 3,
        n: 41,
        ink: 1,
    },
    Run {
        x: 0,
        y: 35,
        n: 1,
        ink: 1,
    },
    Run {
        x: 0,
        y: 65535,
        n: 1,
        ink: 1,
    },
    Run {
        x: 65535,
        y: 0,
        n: 1,
        ink: 1,
    },
    Run {
        x: 1,
        y: 0,
        n: 65535,
        ink: 1,
    },
];

/// Numbers that look like chance and are the same each time.
#[derive(Drop)]
struct Dice {
    state: u16,
}

impl Dice {
    /// A number below 256.
    fn roll(&mut self) -> u16 {
        self.state = self.state.wrapping_mul(25173).wrapping_add(13849);
        self.state / 256
    }

    /// A run that may be empty, leave the surface on the right or below, or have the ink 16.
    fn run(&mut self) -> Run {
        let x = self.roll() % 44;
        let y = self.roll() % 37;
        let n = self.roll() % 30;
        let ink = self.roll() % 17;
        Run { x, y, n, ink }
    }
}

/// The inks that the pixels should have taken, row by row.
#[derive(Clone, Copy)]
pub(super) struct Plain {
    pub(super) inks: [u8; PIXELS],
}

impl Plain {
    /// Paper everywhere.
    fn paper() -> Plain {
        Plain { inks: [0; PIXELS] }
    }

    /// Gives the run to the pixels, and answers whether they accept it.
    // The rule stands here once more, since what `accepts` of a surface answers is tested against it.
    fn give(&mut self, run: Run) -> bool {
        if run.n == 0
            || run.ink > 15
            || run.y >= HIGH
            || run.x as u32 + run.n as u32 > WIDE as u32
        {
            return false;
        }
        let start = WIDE as usize * run.y as usize + run.x as usize;
        self.inks[start..start + run.n as usize].fill(run.ink as u8);
        true
    }

    /// Whether every pixel of the surface took its plain ink.
    pub(super) fn agrees<S: Surface>(&self, rt: &impl Abort, surface: &S) -> Result<(), Fail> {
        for (i, ink) in self.inks.iter().enumerate() {
            let i = i as u16;
            assert_eq!(rt; surface.read(i % WIDE, i / WIDE)?, *ink);
        }
        Ok(())
    }

    /// Gives the run to the pixels and to the surface, which answers as they do, and refuses with the number 30.
    fn play_run<S: Surface>(
        &mut self,
        rt: &impl Abort,
        surface: &mut S,
        run: Run,
    ) -> Result<(), Fail> {
        let accepted = self.give(run);
        answers(rt, surface, run, accepted)
    }
}

/// Whether the surface accepts the run or not, as it should, and refuses with the number 30.
fn answers<S: Surface>(
    rt: &impl Abort,
    surface: &mut S,
    run: Run,
    accepted: bool,
) -> Result<(), Fail> {
    let answer = surface.run(run.x, run.y, run.n, run.ink);
    assert_eq!(rt;
        answer.map_err(u8::from),
        if accepted { Ok(()) } else { Err(30) }
    );
    Ok(())
}

/// Gives each pixel an ink of its own, one after the other: in every column each of the 16 inks comes, and so at each place of
/// a byte.
fn speckle<S: Surface>(rt: &impl Abort, surface: &mut S, plain: &mut Plain) -> Result<(), Fail> {
    for y in 0..HIGH {
        for x in 0..WIDE {
            let ink = (x + y) % 16;
            plain.play_run(rt, surface, Run { x, y, n: 1, ink })?;
        }
    }
    Ok(())
}

/// Gives each pixel an ink of its own and then so many runs to the surface and to plain pixels, which agree after each; every
/// 16th is followed by a settle. It answers the plain pixels.
pub(super) fn play<S: Surface>(rt: &impl Abort, surface: &mut S, runs: u16) -> Result<Plain, Fail> {
    let mut plain = Plain::paper();
    speckle(rt, surface, &mut plain)?;
    let mut dice = Dice { state: 1 };
    for i in 0..runs {
        plain.play_run(rt, surface, dice.run())?;
        plain.agrees(rt, surface)?;
        if i % 16 == 15 {
            surface.settle();
        }
    }
    Ok(plain)
}

/// Whether the surface refuses what every surface of its sides does.
pub(super) fn refuses<S: Surface>(rt: &impl Abort, surface: &mut S) -> Result<(), Fail> {
    for run in REFUSED {
        answers(rt, surface, run, false)?;
    }
    Ok(())
}

#[test]
fn runs_of_both_kinds(rt: HostRuntime) -> Result<(), Fail> {
    let mut plain = Plain::paper();
    let mut dice = Dice { state: 1 };
    let accepted = (0..320u16).filter(|_| plain.give(dice.run())).count();
    assert!(rt; accepted > 160 && accepted < 240);
    Ok(())
}
