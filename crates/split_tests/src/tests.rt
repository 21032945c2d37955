use extent::entry::Entry;
use extent::extent::Measured;
use extent::interval::Interval;
use extent::plane_box::PlaneBox;
use split::choose::{pick_group, pick_letter, pick_next, pick_seeds};
use split::letter::Letter;
use split::split::split;
use std::process::Abort;

/// A box around the middle of the sheet, n pixels to each side.
fn around(n: u8) -> PlaneBox {
    PlaneBox {
        left: 100u8.saturating_sub(n),
        top: 100u8.saturating_sub(n),
        right: 100u8.saturating_add(n),
        bottom: 100u8.saturating_add(n),
    }
}

/// The interval of one frame.
fn at(frame: u16) -> Interval {
    Interval {
        first: frame,
        last: frame,
    }
}

/// An entry with this extent.
fn entry<M>(extent: M) -> Entry<M> {
    Entry { extent, code: 0 }
}

/// The row and one extent more are shared out by these letters.
fn shares_out<M: Measured + Copy>(rt: &impl Abort, row: &[Entry<M>], last: M, letters: &[u8; 9]) {
    assert_eq!(rt; &split(row, last), letters);
}

#[test]
fn equal_extents(rt: HostRuntime) {
    let interval = Interval { first: 7, last: 2 };
    shares_out(&rt, &[entry(around(3)); 8], around(3), b"ABABABABA");
    shares_out(&rt, &[entry(interval); 8], interval, b"ABABABABA");
}

#[test]
fn one_frame_each(rt: HostRuntime) {
    let row = [0, 1, 2, 3, 4, 5, 6, 7].map(|frame| entry(at(frame)));
    shares_out(&rt, &row, at(8), b"AAAAAABBB");
}

#[test]
fn nested_boxes(rt: HostRuntime) {
    let row = [0, 1, 2, 3, 4, 5, 6, 7].map(|n| entry(around(n)));
    shares_out(&rt, &row, around(8), b"ABBBBBBAA");
}

#[test]
fn a_short_row(rt: HostRuntime) {
    shares_out(&rt, &[entry(at(0)); 2], at(9), b"AABBBBBBA");
}

#[test]
fn groups(rt: HostRuntime) {
    assert_eq!(rt; pick_group([1, 2], [9, 3], [5, 1]), Letter::A);
    assert_eq!(rt; pick_group([2, 2], [9, 3], [1, 5]), Letter::B);
    assert_eq!(rt; pick_group([2, 2], [3, 3], [4, 4]), Letter::A);
    assert_eq!(rt; pick_letter([0, 9], [1, 1], [6, 1]), Letter::B);
    assert_eq!(rt; pick_letter([9, 0], [1, 1], [1, 6]), Letter::A);
    assert_eq!(rt; pick_letter([9, 0], [1, 1], [200, 100]), Letter::B);
}

#[test]
fn letters(rt: HostRuntime) {
    assert_eq!(rt; [Letter::A, Letter::B].map(u8::from), [65, 66]);
}

#[test]
fn the_next_entry(rt: HostRuntime) {
    let a = [3, 9, 0, 9, 0, 9, 0, 0, 0];
    let b = [0, 4, 5, 0, 0, 0, 9, 0, 0];
    let mut letters = [None; 9];
    assert_eq!(rt; pick_next(a, b, letters), Some(3));
    letters[3] = Some(Letter::B);
    assert_eq!(rt; pick_next(a, b, letters), Some(5));
    assert_eq!(rt; pick_next(a, b, [Some(Letter::A); 9]), None);
}

#[test]
fn the_seeds(rt: HostRuntime) {
    let mut joins = [[5; 9]; 9];
    assert_eq!(rt; pick_seeds([1; 9], joins), (0, 1));
    joins[2][7] = 6;
    joins[4][5] = 6;
    assert_eq!(rt; pick_seeds([1; 9], joins), (2, 7));
    assert_eq!(rt; pick_seeds([1, 1, 3, 1, 1, 1, 1, 1, 1], joins), (4, 5));
}
