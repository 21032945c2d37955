use super::{boxed, ink, span};
use repaint::ruling::ruling_inks;

/// The ruling ink of shape 3, of ink 5, with a span of ink 7 from frame 2 to 6.
fn third(frame: u16) -> u8 {
    let shapes = [None, None, None, boxed(0, 0, 1, 1, ink(5))];
    let spans = [span(3, 2, 6, ink(7))];
    ruling_inks(&shapes, &spans, frame, &[0]).at(3).value
}

#[test]
fn rules_by_frame(rt: HostRuntime) {
    assert_eq!(rt; (third(1), third(2)), (5, 7));
    assert_eq!(rt; (third(6), third(7)), (7, 5));
}

#[test]
fn rules_by_number_and_not_as_found(rt: HostRuntime) {
    let shapes = [boxed(0, 0, 1, 1, ink(5)), None];
    let spans = [
        span(0, 0, 9, ink(1)),
        span(0, 0, 9, ink(2)),
        span(1, 0, 9, ink(3)),
        span(300, 0, 9, ink(4)),
    ];
    let rising = ruling_inks(&shapes, &spans, 4, &[0, 1, 2, 3]);
    let falling = ruling_inks(&shapes, &spans, 4, &[999, 3, 2, 1, 1, 0, 7]);
    assert_eq!(rt; (rising.at(0).value, falling.at(0).value), (2, 2));
    assert_eq!(rt; (rising.at(1).value, falling.at(44).value), (0, 0));
}
