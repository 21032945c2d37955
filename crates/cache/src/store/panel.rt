ghost use Rattle.surface.specs.Calls.{Settled};
ghost use Rattle.cache.specs.Cached.{picture, FreshCache};
ghost use Rattle.cache.specs.Laws.{cached_lawful};

use super::Cache;
use crate::slot::Slot;
use raster::ink::Ink;
use raster::refusal::Refusal;
use surface::surface::Surface;

impl<S: Surface> Cache<S> {
    /// A cache over a surface, with all slots empty: its picture is that of the surface below.
    pub fn new(below: S) -> Cache<S>
        ensures { FreshCache (S.Surface.view below) (S.Surface.view result.below) (picture S.Surface.view result) }
    {
        Cache {
            below,
            slots: [Slot::blank(None); 4],
            next: 0,
        }
    }

    /// The surface below, once all slots are emptied and it is settled.
    pub fn into_below(mut self) -> S
        ensures { Settled (picture S.Surface.view self) (S.Surface.view result) }
    {
        self.empty_all();
        let Cache {
            below: mut surface,
            slots: _,
            next: _,
        } = self;
        surface.settle();
        surface
    }
}

impl<S: Surface> Surface for Cache<S> {
    ghost view = { picture S.Surface.view };

    ghost lawful = { λ c. cached_lawful c.slots (S.Surface.view c.below) (S.Surface.lawful c.below) };

    fn size(&self) -> (u16, u16) {
        self.below.size()
    }

    fn read(&self, x: u16, y: u16) -> Result<u8, Refusal> {
        if !self.has(x, y) {
            return Err(Refusal::Surface);
        }
        match self.held_ink(x, y) {
            Some(ink) => Ok(ink.value),
            None => self.below.read(x, y),
        }
    }

    fn run(&mut self, x: u16, y: u16, n: u16, ink: u16) -> Result<(), Refusal> {
        if !self.accepts(x, y, n, ink) {
            return Err(Refusal::Surface);
        }
        self.put_run(x, y, n, Ink { value: ink as u8 });
        Ok(())
    }

    fn settle(&mut self) {
        self.empty_all();
        self.below.settle();
    }
}
