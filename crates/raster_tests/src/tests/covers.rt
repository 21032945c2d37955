ghost use Rattle.std.specs.Prelude.{◌≡◌, ℕ, ◌<◌, length, OnOk, slice_index_or};
ghost use Rattle.raster.specs.Fonts.{built_in};
ghost use Rattle.raster.specs.Shapes.{covers as covers_pixel};

use super::{area, figure};
use raster::font::Font;
use raster::shape::Shape;
use std::process::Abort;
use std::test::Fail;

/// Checks of each of the pixels that the shape covers it, or that it does not.
fn check_each(
    rt: &impl Abort,
    shape: Shape,
    pixels: &[(u16, u16)],
    covered: bool,
) -> Result<(), Fail>
    ensures { OnOk result ((k : ℕ) → k < length pixels.now → covers_pixel built_in shape (slice_index_or pixels.now k (0, 0)).0 (slice_index_or pixels.now k (0, 0)).1 ≡ covered) }
{
    let font = Font::built_in();
    for (x, y) in pixels {
        assert!(rt; shape.covers(&font, *x, *y) == covered);
    }
    Ok(())
}

#[test]
fn edges_of_a_box(rt: HostRuntime) -> Result<(), Fail> {
    let shape = area(2, 3, 4, 2);
    check_each(&rt, shape, &[(2, 3), (5, 3), (2, 4), (5, 4)], true)?;
    check_each(&rt, shape, &[(1, 3), (6, 3), (2, 2), (2, 5)], false)
}

#[test]
fn box_in_the_last_corner(rt: HostRuntime) -> Result<(), Fail> {
    let shape = area(65534, 65535, 65535, 1);
    check_each(&rt, shape, &[(65534, 65535), (65535, 65535)], true)?;
    check_each(
        &rt,
        shape,
        &[(65533, 65535), (65535, 65534), (0, 65535)],
        false,
    )
}

#[test]
fn figure_zero(rt: HostRuntime) -> Result<(), Fail> {
    let zero = figure(0, 0, 0);
    check_each(
        &rt,
        zero,
        &[(2, 1), (3, 1), (4, 1), (5, 1), (1, 2), (6, 12)],
        true,
    )?;
    check_each(
        &rt,
        zero,
        &[(1, 1), (6, 1), (2, 0), (2, 2), (1, 7), (9, 2)],
        false,
    )
}

#[test]
fn figure_point(rt: HostRuntime) -> Result<(), Fail> {
    let point = figure(10, 20, 11);
    check_each(&rt, point, &[(17, 33), (17, 34)], true)?;
    check_each(
        &rt,
        point,
        &[(17, 32), (17, 35), (16, 33), (18, 33), (7, 13)],
        false,
    )
}

#[test]
fn glyph_past_the_last(rt: HostRuntime) -> Result<(), Fail> {
    check_each(&rt, figure(0, 0, 16), &[(2, 1), (1, 2)], false)
}
