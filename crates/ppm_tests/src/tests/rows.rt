use crate::card::Card;
use ppm::row;
use std::process::Abort;
use std::test::Fail;

/// Black, black and white above blue, green and dim red.
const CARD: Card = Card {
    inks: [15, 15, 0, 6, 5, 11],
};

/// The nine bytes of row y of the card are written over sevens, of which the rest stay.
fn rowed<const N: usize, R: Abort>(rt: &R, y: u16, expected: &[u8; N]) -> Result<(), Fail> {
    let mut output = [7; N];
    assert_eq!(rt; row(y, &CARD, &mut output)?, 9);
    assert_eq!(rt; &output, expected);
    Ok(())
}

/// No row is written over eight sevens: it is refused with that number.
fn refused<R: Abort>(rt: &R, y: u16, number: u8) {
    let mut output = [7; 8];
    assert_eq!(rt; row(y, &CARD, &mut output).map_err(u8::from), Err(number));
    assert_eq!(rt; output, [7; 8]);
}

#[test]
fn first_row(rt: HostRuntime) -> Result<(), Fail> {
    rowed(&rt, 0, &[0, 0, 0, 0, 0, 0, 255, 255, 255, 7, 7])
}

#[test]
fn second_row(rt: HostRuntime) -> Result<(), Fail> {
    rowed(&rt, 1, &[85, 85, 255, 85, 255, 85, 170, 0, 0])
}

#[test]
fn row_below(rt: HostRuntime) {
    refused(&rt, 2, 10);
}

#[test]
fn one_byte_short(rt: HostRuntime) {
    refused(&rt, 0, 32);
}
