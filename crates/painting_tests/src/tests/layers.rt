use super::{boxed, figure, ink, line, still};
use painting::whole::paint_whole;
use raster::font::Font;
use std::test::Fail;
use surface::byte::ByteSurface;
use surface::surface::Surface;

#[test]
fn later_over_earlier(rt: HostRuntime) {
    let font = Font::built_in();
    let shapes = [boxed(0, 0, 2, 2, ink(3)), None, boxed(1, 1, 2, 1, ink(5))];
    let mut memory = [9; 12];
    let mut surface = ByteSurface::new(&mut memory, 4, 3);
    paint_whole(&still(&font, &shapes), &mut surface);
    assert_eq!(rt; memory, [3, 3, 0, 0, 3, 5, 5, 0, 0, 0, 0, 0]);
}

#[test]
fn cut_off_at_the_edges(rt: HostRuntime) {
    let font = Font::built_in();
    let shapes = [
        line(2, 0, 9, 0, ink(4)),
        boxed(0, 2, 2, 65535, ink(6)),
        figure(1, 0, 0, ink(7)),
        boxed(4, 0, 65535, 3, ink(1)),
    ];
    let mut memory = [9; 14];
    let mut surface = ByteSurface::new(&mut memory, 4, 3);
    paint_whole(&still(&font, &shapes), &mut surface);
    assert_eq!(rt; memory, [0, 0, 4, 4, 0, 0, 0, 7, 6, 6, 7, 0, 9, 9]);
}

#[test]
fn empty_scene(rt: HostRuntime) -> Result<(), Fail> {
    let font = Font::built_in();
    let mut memory = [9; 7];
    let mut surface = ByteSurface::new(&mut memory, 3, 2);
    surface.run(0, 0, 3, 15)?;
    surface.run(1, 1, 2, 4)?;
    assert_eq!(rt; surface.read(2, 1)?, 4);
    paint_whole(&still(&font, &[]), &mut surface);
    assert_eq!(rt; memory, [0, 0, 0, 0, 0, 0, 9]);
    Ok(())
}
