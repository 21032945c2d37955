use super::{boxed, ink, span};
use painting::scene::Scene;
use painting::whole::paint_whole;
use raster::font::Font;
use surface::byte::ByteSurface;

#[test]
fn first_and_last_frame(rt: HostRuntime) {
    let font = Font::built_in();
    let shapes = [None, None, None, boxed(0, 0, 1, 1, ink(5))];
    let spans = [span(3, 2, 6, ink(7))];
    for frame in 0..9u16 {
        let scene = Scene {
            font: &font,
            shapes: &shapes,
            spans: &spans,
            frame,
        };
        let expected = if frame < 2 || frame > 6 { 5 } else { 7 };
        assert_eq!(rt; scene.ink_at(0, 0), expected);
        assert_eq!(rt; scene.ink_at(1, 0), 0);
    }
}

#[test]
fn larger_number_rules(rt: HostRuntime) {
    let font = Font::built_in();
    let spans = [None, span(0, 1, 4, ink(7)), None, span(0, 3, 6, ink(8))];
    let mut scene = Scene {
        font: &font,
        shapes: &[],
        spans: &spans,
        frame: 2,
    };
    assert_eq!(rt; scene.ruling_ink(1, ink(5)).value, 5);
    for (frame, expected) in [(2, 7), (3, 8), (4, 8), (7, 5)] {
        scene.frame = frame;
        assert_eq!(rt; scene.ruling_ink(0, ink(5)).value, expected);
    }
}

#[test]
fn recoloured_shape_stays_below(rt: HostRuntime) {
    let font = Font::built_in();
    let shapes = [boxed(0, 0, 2, 1, ink(3)), boxed(1, 0, 2, 1, ink(5))];
    let spans = [span(0, 0, 65535, ink(9))];
    let scene = Scene {
        font: &font,
        shapes: &shapes,
        spans: &spans,
        frame: 65535,
    };
    let mut memory = [1; 4];
    paint_whole(&scene, &mut ByteSurface::new(&mut memory, 4, 1));
    assert_eq!(rt; memory, [9, 5, 5, 0]);
}
