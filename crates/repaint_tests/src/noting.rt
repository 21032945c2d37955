use raster::refusal::Refusal;
use raster::shape::Bounds;
use surface::surface::Surface;

/// A surface that notes how many runs it was handed, and the box around all of their pixels, if there was one.
#[derive(Drop)]
pub struct Noting<S> {
    below: S,
    runs: u32,
    around: Option<Bounds>,
}

impl<S: Surface> Noting<S> {
    /// With no run noted.
    pub fn new(below: S) -> Noting<S> {
        Noting {
            below,
            runs: 0,
            around: None,
        }
    }

    /// How many runs there were.
    pub fn runs(&self) -> u32 {
        self.runs
    }

    /// The box around their pixels, if there was a run.
    pub fn around(&self) -> Option<Bounds> {
        self.around
    }
}

/// The box of a run.
fn run_box(x: u16, y: u16, n: u16) -> Bounds {
    Bounds {
        left: x as u32,
        top: y as u32,
        right: x as u32 + n as u32,
        bottom: y as u32 + 1,
    }
}

/// The box around two boxes.
fn joined(a: Bounds, b: Bounds) -> Bounds {
    Bounds {
        left: a.left.min(b.left),
        top: a.top.min(b.top),
        right: a.right.max(b.right),
        bottom: a.bottom.max(b.bottom),
    }
}

impl<S: Surface> Surface for Noting<S> {
    ghost view = { λ s. S.Surface.view s.below };

    ghost lawful = { λ s. S.Surface.lawful s.below };

    fn size(&self) -> (u16, u16) {
        self.below.size()
    }

    fn read(&self, x: u16, y: u16) -> Result<u8, Refusal> {
        self.below.read(x, y)
    }

    fn run(&mut self, x: u16, y: u16, n: u16, ink: u16) -> Result<(), Refusal> {
        self.runs = self.runs.saturating_add(1);
        let run = run_box(x, y, n);
        self.around = Some(self.around.map_or(run, |around| joined(around, run)));
        self.below.run(x, y, n, ink)
    }

    fn settle(&mut self) {
        self.below.settle();
    }
}
