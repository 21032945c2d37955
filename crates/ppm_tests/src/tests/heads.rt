use ppm::head;
use std::process::Abort;
use std::test::Fail;

/// A head of so many bytes is written over sevens, of which the rest stay.
fn headed<const N: usize, R: Abort>(
    rt: &R,
    width: u16,
    height: u16,
    count: usize,
    expected: &[u8; N],
) -> Result<(), Fail> {
    let mut output = [7; N];
    assert_eq!(rt; head(width, height, &mut output)?, count);
    assert_eq!(rt; &output, expected);
    Ok(())
}

/// No head is written over those bytes: it is refused with that number.
fn refused<const N: usize, R: Abort>(rt: &R, width: u16, height: u16, number: u8, old: &[u8; N]) {
    let mut output = *old;
    assert_eq!(rt;
        head(width, height, &mut output).map_err(u8::from),
        Err(number)
    );
    assert_eq!(rt; &output, old);
}

#[test]
fn shortest(rt: HostRuntime) -> Result<(), Fail> {
    headed(&rt, 1, 1, 11, b"P6\n1 1\n255\n\x07\x07\x07\x07\x07")
}

#[test]
fn longest(rt: HostRuntime) -> Result<(), Fail> {
    headed(&rt, 256, 256, 15, b"P6\n256 256\n255\n")
}

#[test]
fn two_digits_and_one(rt: HostRuntime) -> Result<(), Fail> {
    headed(&rt, 16, 9, 12, b"P6\n16 9\n255\n\x07\x07\x07")
}

#[test]
fn zeros_inside(rt: HostRuntime) -> Result<(), Fail> {
    headed(&rt, 100, 7, 13, b"P6\n100 7\n255\n\x07\x07")
}

#[test]
fn fourteen_bytes(rt: HostRuntime) {
    refused(&rt, 1, 1, 32, &[7; 14]);
}

#[test]
fn sides_outside(rt: HostRuntime) {
    for (width, height) in [(0, 1), (1, 0), (257, 1), (1, 257)] {
        refused(&rt, width, height, 3, &[7; 15]);
    }
}

#[test]
fn sides_before_room(rt: HostRuntime) {
    refused(&rt, 0, 257, 3, &[7; 3]);
}
