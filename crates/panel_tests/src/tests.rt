use cache::store::Cache;
use painting::scene::{Placed, Scene, Span};
use painting::whole::paint_whole;
use plane::planes::PlaneSurface;
use ppm::frame;
use raster::font::Font;
use raster::ink::Ink;
use raster::shape::{Cell, Ends, Rect, Shape};
use std::alloc::{AllocError, Global};
use std::test::Fail;
use surface::byte::ByteSurface;
use surface::surface::Surface;

/// The head of 13 bytes, and three bytes for each of 40 × 24 pixels.
const LENGTH: usize = 2893;

/// A box, a slanting line and a figure over one another.
fn shapes() -> [Option<Placed>; 3] {
    let area = Shape::Box(Rect {
        x: 2,
        y: 1,
        w: 30,
        h: 20,
    });
    let line = Shape::Line(Ends {
        x0: 39,
        y0: 0,
        x1: 0,
        y1: 23,
    });
    let figure = Shape::Figure(Cell {
        x: 13,
        y: 4,
        glyph: 8,
    });
    [
        Some(Placed {
            shape: area,
            ink: Ink { value: 5 },
        }),
        Some(Placed {
            shape: line,
            ink: Ink { value: 9 },
        }),
        Some(Placed {
            shape: figure,
            ink: Ink { value: 15 },
        }),
    ]
}

/// The frame of the shapes on a surface, with a span that colours the line.
fn painted<S: Surface>(heap: Global, surface: &mut S) -> Result<Vec<u8>, AllocError> {
    let span = Span {
        shape: 1,
        from: 2,
        to: 6,
        ink: Ink { value: 10 },
    };
    let scene = Scene {
        font: &Font::built_in(),
        shapes: &shapes(),
        spans: &[Some(span)],
        frame: 4,
    };
    paint_whole(&scene, surface);
    frame(heap, surface)
}

/// The same frame on a cache over a surface. The caches are made in functions over any surface below, since the prover does not
/// cover a cache over a surface in lent memory as a value of its own.
fn painted_cached<S: Surface + Drop>(heap: Global, below: S) -> Result<Vec<u8>, AllocError> {
    painted(heap, &mut Cache::new(below))
}

/// And on a cache over a cache.
fn painted_twice_cached<S: Surface + Drop>(heap: Global, below: S) -> Result<Vec<u8>, AllocError> {
    painted_cached(heap, Cache::new(below))
}

#[test]
fn frames_are_the_same(rt: HostRuntime) -> Result<(), Fail> {
    let heap = rt.alloc();
    let mut memory = vec![in heap; 7u8; 1000]?;
    let wanted = painted(heap, &mut ByteSurface::new(&mut memory, 40, 24))?;
    assert_eq!(rt; wanted.len(), LENGTH);
    let plane = painted(heap, &mut PlaneSurface::new(&mut memory, 40, 24))?;
    assert!(rt; plane == wanted);
    let cached = painted_cached(heap, ByteSurface::new(&mut memory, 40, 24))?;
    assert!(rt; cached == wanted);
    let cached_plane = painted_cached(heap, PlaneSurface::new(&mut memory, 40, 24))?;
    assert!(rt; cached_plane == wanted);
    let twice_cached = painted_twice_cached(heap, PlaneSurface::new(&mut memory, 40, 24))?;
    assert!(rt; twice_cached == wanted);
    Ok(())
}
