use super::bounds;
use repaint::marks::Marks;

/// How many numbers are marked.
fn count(marks: &Marks) -> usize {
    (0..300u16).filter(|t| marks.has(*t)).count()
}

#[test]
fn marks_the_tiles_of_a_box(rt: HostRuntime) {
    let mut marks = Marks::none();
    assert!(rt; count(&marks) == 0);
    marks.mark(40, 35, bounds(15, 15, 17, 17));
    assert!(rt; marks.has(0) && marks.has(1) && marks.has(3) && marks.has(4));
    assert!(rt; count(&marks) == 4);
    marks.mark(40, 35, bounds(16, 0, 32, 16));
    assert!(rt; count(&marks) == 4);
    marks.mark(40, 35, bounds(39, 34, 40, 35));
    assert!(rt; marks.has(8) && count(&marks) == 5);
}

#[test]
fn marks_nothing_outside(rt: HostRuntime) {
    let mut marks = Marks::none();
    marks.mark(40, 35, bounds(40, 0, 60, 35));
    marks.mark(40, 35, bounds(0, 35, 40, 65535));
    marks.mark(40, 35, bounds(7, 7, 7, 9));
    marks.mark(0, 0, bounds(0, 0, 16, 16));
    assert!(rt; count(&marks) == 0);
    marks.mark(256, 256, bounds(0, 0, 256, 256));
    assert!(rt; count(&marks) == 256);
}
