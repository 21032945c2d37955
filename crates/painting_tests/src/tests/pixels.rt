use super::{boxed, figure, ink, line, span};
use painting::scene::Scene;
use painting::whole::paint_whole;
use raster::font::Font;
use std::test::Fail;
use surface::byte::ByteSurface;
use surface::surface::Surface;

#[test]
fn painted_as_told_by_pixel(rt: HostRuntime) -> Result<(), Fail> {
    let font = Font::built_in();
    let shapes = [
        boxed(5, 2, 20, 15, ink(6)),
        line(38, 1, 3, 22, ink(9)),
        figure(12, 4, 8, ink(15)),
        boxed(30, 20, 60, 60, ink(2)),
    ];
    let spans = [span(0, 3, 5, ink(11))];
    let scene = Scene {
        font: &font,
        shapes: &shapes,
        spans: &spans,
        frame: 4,
    };
    let mut memory = [7; 960];
    let mut surface = ByteSurface::new(&mut memory, 40, 24);
    paint_whole(&scene, &mut surface);
    assert_eq!(rt; surface.read(5, 2)?, 11);
    for y in 0..24 {
        for x in 0..40 {
            assert_eq!(rt; surface.read(x, y)?, scene.ink_at(x, y));
        }
    }
    Ok(())
}
