ghost use Rattle.std.specs.Prelude.{◌≡◌, true, [], ◌∷◌};
ghost use Rattle.std.specs.List.{slice_get};
ghost use Rattle.raster.specs.Lines.{pixels, among};

use super::line;
use raster::shape::Ends;

/// The first six pixels of a line, as it lists them.
fn first_six(line: Ends) -> [Option<(u16, u16)>; 6]
    ensures { result ≡ slice_get (pixels line) 0 ∷ slice_get (pixels line) 1 ∷ slice_get (pixels line) 2 ∷ slice_get (pixels line) 3 ∷ slice_get (pixels line) 4 ∷ slice_get (pixels line) 5 ∷ [] }
{
    [0, 1, 2, 3, 4, 5].map(|i| line.pixel(i))
}

/// Whether the pixel (x, y) is one of those that a line lists.
fn lists(line: Ends, x: u16, y: u16) -> bool
    ensures { result ≡ among (pixels line) x y }
{
    line.pixels().any(|pixel| pixel == (x, y))
}

/// Whether a line covers exactly the pixels that it lists, in row y from column 0 to 15.
fn row_agrees(line: Ends, y: u16) -> bool
    ensures { result ≡ true }
{
    (0..16).all(|x| line.covers(x, y) == lists(line, x, y))
}

/// Whether a line covers exactly the pixels that it lists, on 16 by 16 pixels.
fn agrees(line: Ends) -> bool
    ensures { result ≡ true }
{
    (0..16).all(|y| row_agrees(line, y))
}

/// A line in each octant, then level, upright and single.
const LINES: [[u16; 4]; 13] = [
    [2, 3, 13, 7],
    [3, 2, 7, 13],
    [12, 2, 7, 13],
    [13, 3, 2, 7],
    [13, 12, 2, 8],
    [12, 13, 8, 2],
    [3, 13, 8, 2],
    [2, 12, 13, 8],
    [1, 4, 14, 4],
    [14, 4, 1, 4],
    [4, 1, 4, 14],
    [4, 14, 4, 1],
    [9, 9, 9, 9],
];

#[test]
fn covered_as_listed(rt: HostRuntime) {
    for [x0, y0, x1, y1] in LINES {
        assert!(rt; agrees(line(x0, y0, x1, y1)));
    }
}

#[test]
fn written_out(rt: HostRuntime) {
    assert_eq!(rt;
        first_six(line(0, 0, 3, 1)),
        [
            Some((0, 0)),
            Some((1, 0)),
            Some((2, 1)),
            Some((3, 1)),
            None,
            None,
        ]
    );
    assert_eq!(rt;
        first_six(line(3, 1, 0, 0)),
        [
            Some((3, 1)),
            Some((2, 1)),
            Some((1, 0)),
            Some((0, 0)),
            None,
            None,
        ]
    );
    assert_eq!(rt;
        first_six(line(0, 5, 2, 0)),
        [
            Some((0, 5)),
            Some((0, 4)),
            Some((1, 3)),
            Some((1, 2)),
            Some((2, 1)),
            Some((2, 0)),
        ]
    );
    assert_eq!(rt;
        first_six(line(9, 9, 9, 9)),
        [Some((9, 9)), None, None, None, None, None]
    );
}

#[test]
fn steep_to_the_left(rt: HostRuntime) {
    let steep = line(5, 2, 4, 9);
    assert_eq!(rt;
        first_six(steep),
        [
            Some((5, 2)),
            Some((5, 3)),
            Some((5, 4)),
            Some((5, 5)),
            Some((4, 6)),
            Some((4, 7)),
        ]
    );
    assert_eq!(rt; steep.pixel(6), Some((4, 8)));
    assert_eq!(rt; steep.pixel(7), Some((4, 9)));
    assert_eq!(rt; steep.count(), 8);
    assert_eq!(rt; steep.pixel(8), None);
}

#[test]
fn longest(rt: HostRuntime) {
    let diagonal = line(0, 0, 65535, 65535);
    assert_eq!(rt; diagonal.count(), 65536);
    assert_eq!(rt; diagonal.pixel(65535), Some((65535, 65535)));
    assert_eq!(rt; diagonal.pixel(65536), None);
    assert!(rt; diagonal.covers(40000, 40000));
    assert!(rt; !diagonal.covers(40000, 40001));
}
