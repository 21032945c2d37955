ghost use Rattle.std.specs.Prelude.{◌≡◌, ℕ, length, None};
ghost use Rattle.cache.specs.Cached.{cached, slot_inks, Quiet};
ghost use Rattle.cache.specs.Slots.{tile_at, Apart};
ghost use Rattle.handing.specs.Given.{Given};

use crate::slot::Slot;
use handing::down::hand_down;
use handing::spot::Spot;
use surface::surface::Surface;

/// Gives all inks of a slot to the surface, in as few runs as they allow.
pub(crate) fn pour<S: Surface>(below: &mut S, slot: &Slot)
    ensures { Given (slot_inks slot.now (S.Surface.view below.old).wide) (S.Surface.view below.old) (S.Surface.view below.new) }
{
    if let Some(tile) = slot.tile() {
        let (width, _) = below.size();
        hand_down(below, slot, Spot::of(width, tile));
    }
}

/// Gives all inks of all slots to the surface, and empties the slots.
pub(crate) fn pour_all<S: Surface>(below: &mut S, slots: &mut [Slot; 4])
    requires { Apart slots.old }
    ensures quiet { Quiet (cached slots.old (S.Surface.view below.old)) (cached slots.new (S.Surface.view below.new)) }
    ensures free { (i : ℕ) → tile_at slots.new i ≡ None }
    ensures four { length slots.new ≡ 4 }
{
    for slot in slots {
        pour(below, slot);
        *slot = Slot::blank(None);
    }
}
