ghost use Rattle.std.specs.Prelude.{◌≡◌, ℕ, ◌<◌, is_some, if◌then◌else◌, Some, slice_index};
ghost use Rattle.std.specs.Option.{unwrap_or, option_map};
ghost use Rattle.painting.specs.Drawing.{Drawing, span_ink};
ghost use Rattle.painting.specs.Scenes.{item, turn, at_number};
ghost use Rattle.tiling.specs.Found.{ShapesOf, SpansOf, SpansListed, RulingInks, shape_or_none, ruled};

use crate::inks::Inks;
use crate::marks::Marks;
use painting::scene::inks::entry_at;
use painting::scene::{Placed, Span};

/// The own inks of the shapes, paper where there is none.
fn own_inks(shapes: &[Option<Placed>]) -> Inks
    ensures { (n : ℕ) → n < 256 → slice_index result.values n ≡ shape_or_none (option_map item (at_number shapes.now n)) (λ own. own) }
{
    let mut inks = Inks::paper();
    for (number, placed) in (0..256u16).zip(shapes) {
        if let Some(placed) = placed {
            inks.put(number as u8, placed.ink);
        }
    }
    inks
}

/// Gives a span's ink to the shape that it names, if there is one and the span holds the frame.
fn rule(inks: &mut Inks, shapes: &[Option<Placed>], span: Span, frame: u16)
    ensures { (n : ℕ) → n < 256 → slice_index inks.new.values n ≡ (if is_some (at_number shapes.now n) then unwrap_or (span_ink (Some (turn span)) n frame) (slice_index inks.old.values n) else slice_index inks.old.values n) }
{
    if span.holds(span.shape, frame) && entry_at(shapes, span.shape as usize).is_some() {
        inks.put(span.shape as u8, span.ink);
    }
}

/// The ruling ink of each shape at the frame, by those spans whose numbers were found, in any order; paper where there is no
/// shape. If every span that holds the frame was found, these are the drawing's ruling inks.
// No `Scene`, though these three are fields of it: it asks for a font too, which no ruling ink needs.
pub fn ruling_inks(
    shapes: &[Option<Placed>],
    spans: &[Option<Span>],
    frame: u16,
    found: &[u16],
) -> Inks
    ensures value { (n : ℕ) → n < 256 → slice_index result.values n ≡ ruled shapes.now spans.now frame found.now n }
    ensures whole { (d : Drawing) → ShapesOf shapes.now d → SpansOf spans.now d → d.frame ≡ frame → SpansListed d found.now → RulingInks d result.values }
{
    let listed = Marks::of(found);
    let mut inks = own_inks(shapes);
    // By number: a mark and an entry are asked for at each. With a zip over the table the mark would still need the number:
    // no plainer.
    for s in 0..256 {
        if let Some(span) = listed.pick(spans, s) {
            rule(&mut inks, shapes, span, frame);
        }
    }
    inks
}
