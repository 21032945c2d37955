ghost use Rattle.std.specs.Prelude.{◌≡◌, ◌<◌, length};
ghost use Rattle.cache.specs.Slots.{Apart};

use crate::slot::Slot;

mod moves;
pub mod panel;

/// A surface that keeps runs in four slots, one tile each, before they reach the surface below.
#[derive(Drop)]
pub struct Cache<S> {
    below: S,
    // A ring in fixed memory, and no queue of the library's: that takes heap, and a cache has none.
    slots: [Slot; 4],
    next: usize,
    ghost four: { length slots ≡ 4 },
    ghost turn: { next < 4 },
    ghost apart: { Apart slots },
}
