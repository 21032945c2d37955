use listing::line::Line;
use listing::parse::parse;
use raster::shape::{Cell, Ends, Rect, Shape};
use std::process::Abort;

/// Each text is read as its line.
fn all_taken(rt: &impl Abort, cases: &[(&[u8], Line)]) {
    for (text, line) in cases {
        assert!(rt; parse(text) == Some(*line));
    }
}

#[test]
fn sheet(rt: HostRuntime) {
    let line = Line::Sheet {
        width: 256,
        height: 0,
    };
    all_taken(&rt, &[(b"sheet 256 0", line)]);
}

#[test]
fn shapes(rt: HostRuntime) {
    let rect = Rect {
        x: 1,
        y: 20,
        w: 300,
        h: 4000,
    };
    let ends = Ends {
        x0: 1,
        y0: 2,
        x1: 3,
        y1: 4,
    };
    let cell = Cell {
        x: 8,
        y: 16,
        glyph: 10,
    };
    let placed = |number, shape, ink| Line::Shape { number, shape, ink };
    all_taken(
        &rt,
        &[
            (b"box 7 1 20 300 4000 15", placed(7, Shape::Box(rect), 15)),
            (b"line 0 1 2 3 4 5", placed(0, Shape::Line(ends), 5)),
            (b"figure 255 8 16 10 1", placed(255, Shape::Figure(cell), 1)),
        ],
    );
}

#[test]
fn span_and_frame(rt: HostRuntime) {
    let span = Line::Span {
        number: 3,
        shape: 7,
        from: 10,
        to: 20,
        ink: 2,
    };
    all_taken(
        &rt,
        &[
            (b"span 3 7 10 20 2", span),
            (b"frame 12", Line::Frame { frame: 12 }),
        ],
    );
}

#[test]
fn largest_figure(rt: HostRuntime) {
    all_taken(&rt, &[(b"frame 65535", Line::Frame { frame: 65535 })]);
}
