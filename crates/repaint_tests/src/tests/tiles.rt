use super::{bounds, boxed, ink};
use crate::noting::Noting;
use extent::plane_box::PlaneBox;
use painting::scene::{Placed, Scene};
use raster::font::Font;
use raster::shape::Bounds;
use repaint::area::tile_area;
use repaint::paint::paint_tile;
use repaint::ruling::ruling_inks;
use repaint::tile::tile_inks;
use std::process::Abort;
use std::test::Fail;
use surface::byte::ByteSurface;
use surface::surface::Surface;

/// Repaints tile t from the shapes 2, 0 and 1, found in this order.
fn repaint<S: Surface>(surface: &mut S, shapes: &[Option<Placed>], t: u8) {
    let (width, _) = surface.size();
    let inks = ruling_inks(shapes, &[], 0, &[]);
    let tile = tile_inks(&Font::built_in(), shapes, &inks, &[2, 0, 1], width, t);
    paint_tile(surface, t, &tile);
}

/// Whether the pixel (x, y) lies in the box.
fn inside(tile: Bounds, x: u32, y: u32) -> bool {
    tile.left <= x && x < tile.right && tile.top <= y && y < tile.bottom
}

/// Whether each pixel of the surface has the fresh painting's ink in the box, and paper elsewhere.
fn fresh<S: Surface>(
    rt: &impl Abort,
    surface: &S,
    shapes: &[Option<Placed>],
    tile: Bounds,
) -> Result<(), Fail> {
    let font = Font::built_in();
    let scene = Scene {
        font: &font,
        shapes,
        spans: &[],
        frame: 0,
    };
    for y in 0..20u16 {
        for x in 0..20u16 {
            let here = inside(tile, x as u32, y as u32);
            let ink = if here { scene.ink_at(x, y) } else { 0 };
            assert_eq!(rt; surface.read(x, y)?, ink);
        }
    }
    Ok(())
}

/// Repaints tile t of a surface of 20 by 20 pixels: all of the box of the tile changes, nothing else does, and no run leaves it.
fn one_tile(
    rt: &impl Abort,
    memory: &mut [u8; 400],
    t: u8,
    tile: Bounds,
    runs: u32,
) -> Result<(), Fail> {
    let shapes = [
        boxed(0, 0, 20, 20, ink(3)),
        boxed(2, 2, 16, 16, ink(4)),
        boxed(10, 10, 8, 8, ink(5)),
    ];
    let mut surface = Noting::new(ByteSurface::new(memory, 20, 20));
    repaint(&mut surface, &shapes, t);
    assert!(rt; surface.around() == Some(tile));
    assert_eq!(rt; surface.runs(), runs);
    fresh(rt, &surface, &shapes, tile)
}

#[test]
fn repaints_one_tile(rt: HostRuntime) -> Result<(), Fail> {
    let mut memory = [0; 400];
    one_tile(&rt, &mut memory, 0, bounds(0, 0, 16, 16), 36)?;
    one_tile(&rt, &mut memory, 1, bounds(16, 0, 20, 16), 30)?;
    one_tile(&rt, &mut memory, 2, bounds(0, 16, 16, 20), 8)?;
    one_tile(&rt, &mut memory, 3, bounds(16, 16, 20, 20), 6)
}

#[test]
fn knows_the_box_of_a_tile(rt: HostRuntime) {
    let corner = PlaneBox {
        left: 16,
        top: 16,
        right: 19,
        bottom: 19,
    };
    assert!(rt; tile_area(20, 20, 3) == Some(corner));
    assert!(rt; tile_area(20, 20, 4) == None);
    assert!(rt; tile_area(0, 20, 0) == None);
}
