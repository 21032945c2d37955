use super::{area, figure, line, refused};
use raster::ink::Ink;
use raster::shape::Shape;
use raster::size::Size;
use std::test::Fail;

#[test]
fn sides(rt: HostRuntime) {
    for (width, height) in [(0, 1), (1, 0), (257, 1), (1, 257)] {
        assert_eq!(rt; refused(Size::new(width, height)), Some(3));
    }
    for (width, height) in [(1, 256), (256, 1)] {
        assert_eq!(rt; refused(Size::new(width, height)), None);
    }
}

#[test]
fn least_sheet(rt: HostRuntime) -> Result<(), Fail> {
    let least = Size::new(1, 1)?;
    assert_eq!(rt; refused(area(0, 0, 1, 1).check_bounds(least)), None);
    assert_eq!(rt; refused(area(1, 0, 1, 1).check_bounds(least)), Some(10));
    Ok(())
}

/// Shapes that just fit on 256 by 256 pixels.
fn inside() -> [Shape; 3] {
    [
        area(0, 0, 256, 256),
        figure(248, 240, 0),
        Shape::Line(line(255, 0, 0, 255)),
    ]
}

/// Shapes that just do not.
fn outside() -> [Shape; 8] {
    [
        area(1, 0, 256, 1),
        area(0, 0, 1, 257),
        area(65535, 65535, 65535, 65535),
        area(257, 0, 0, 0),
        figure(249, 240, 0),
        figure(248, 241, 0),
        Shape::Line(line(256, 0, 0, 255)),
        Shape::Line(line(255, 0, 0, 256)),
    ]
}

#[test]
fn largest_sheet(rt: HostRuntime) -> Result<(), Fail> {
    let most = Size::new(256, 256)?;
    for shape in inside() {
        assert_eq!(rt; refused(shape.check_bounds(most)), None);
    }
    for shape in outside() {
        assert_eq!(rt; refused(shape.check_bounds(most)), Some(10));
    }
    Ok(())
}

#[test]
fn figures(rt: HostRuntime) {
    for shape in inside() {
        assert_eq!(rt; refused(shape.check_figures()), None);
    }
    // Shapes that no sheet has: boxes without a side, and a glyph above 15.
    for shape in [area(0, 0, 0, 1), area(0, 0, 1, 0), figure(0, 0, 16)] {
        assert_eq!(rt; refused(shape.check_figures()), Some(9));
    }
    assert_eq!(rt; refused(figure(0, 0, 15).check_figures()), None);
}

#[test]
fn inks(rt: HostRuntime) -> Result<(), Fail> {
    assert_eq!(rt; Ink::try_from(15)?.value, 15);
    assert_eq!(rt; refused(Ink::try_from(16)), Some(9));
    assert_eq!(rt; refused(Ink::try_from(271)), Some(9));
    Ok(())
}
