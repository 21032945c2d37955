use extent::extent::{Extent, Measured};
use extent::interval::Interval;
use extent::plane_box::{Pixel, PlaneBox};
use raster::shape::{Cell, Rect, Shape};

/// First and last of two intervals, then whether the first covers the second, whether they meet, and the growth.
const PAIRS: [(u16, u16, u16, u16, bool, bool, u32); 7] = [
    (2, 6, 3, 5, true, true, 0),
    (2, 6, 2, 6, true, true, 0),
    (2, 6, 6, 9, false, true, 3),
    (2, 6, 7, 9, false, false, 3),
    (0, 0, 65535, 65535, false, false, 65535),
    (6, 2, 4, 4, false, false, 1),
    (6, 2, 5, 3, false, false, 0),
];

#[test]
fn intervals(rt: HostRuntime) {
    for (first, last, from, to, covers, meets, growth) in PAIRS {
        let a = Interval { first, last };
        let b = Interval {
            first: from,
            last: to,
        };
        assert_eq!(rt; a.covers(&b), covers);
        assert_eq!(rt; a.meets(&b), meets);
        assert_eq!(rt; a.growth(&b), growth);
    }
}

#[test]
fn interval_sizes(rt: HostRuntime) {
    let all = Interval {
        first: 0,
        last: 65535,
    };
    assert_eq!(rt; all.size(), 65536);
    assert!(rt; all.holds(&65535));
    let none = Interval { first: 6, last: 2 };
    assert_eq!(rt; none.size(), 0);
    assert!(rt; !none.holds(&4));
}

#[test]
fn boxes(rt: HostRuntime) {
    let a = PlaneBox {
        left: 0,
        top: 0,
        right: 255,
        bottom: 255,
    };
    let b = PlaneBox {
        left: 3,
        top: 4,
        right: 7,
        bottom: 5,
    };
    assert_eq!(rt; a.size(), 65536);
    assert_eq!(rt; b.size(), 10);
    assert!(rt; a.covers(&b) && !b.covers(&a));
    assert_eq!(rt; b.growth(&a), 65526);
    assert!(rt; b.holds(&Pixel { x: 7, y: 5 }));
    assert!(rt; !b.holds(&Pixel { x: 8, y: 5 }));
    assert!(rt; !b.holds(&Pixel { x: 3, y: 300 }));
}

#[test]
fn boxes_of_shapes(rt: HostRuntime) {
    let cell = PlaneBox::of_shape(Shape::Figure(Cell {
        x: 248,
        y: 240,
        glyph: 0,
    }));
    let edges = PlaneBox {
        left: 248,
        top: 240,
        right: 255,
        bottom: 255,
    };
    assert!(rt; cell == Some(edges));
    let empty = Shape::Box(Rect {
        x: 1,
        y: 1,
        w: 0,
        h: 1,
    });
    assert!(rt; PlaneBox::of_shape(empty).is_none());
    let outside = Shape::Box(Rect {
        x: 255,
        y: 0,
        w: 2,
        h: 1,
    });
    assert!(rt; PlaneBox::of_shape(outside).is_none());
}
