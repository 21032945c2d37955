ghost use Rattle.std.specs.Prelude.{[], ◌∷◌, length};
ghost use Rattle.listing.specs.Figures.{Numeric, NumberOf, DigitsFront, Parts, FiguresOf, Reads};

/// The largest figure.
const LIMIT: u32 = 65535;

/// How many of the first bytes are digits.
fn leading_digits(bytes: &[u8]) -> usize
    ensures { DigitsFront bytes.now result }
{
    bytes
        .iter()
        .take_while(|byte| byte.is_ascii_digit())
        .count()
}

/// The digits that the bytes begin with, and what follows them.
fn split_digits(bytes: &[u8]) -> (&[u8], &[u8])
    ensures { Parts bytes.now result.0.now result.1.now }
{
    bytes.split_at(leading_digits(bytes))
}

/// The number that the digits write, unless it is above 65,535.
fn number(digits: &[u8]) -> Option<u16>
    requires { Numeric digits.now (length digits.now) }
    ensures { NumberOf digits.now result }
{
    let mut n = 0u16;
    for digit in digits {
        let more = u32::from(n) * 10 + u32::from(*digit - b'0');
        if more > LIMIT {
            return None;
        }
        n = more as u16;
    }
    Some(n)
}

/// The number that the bytes begin with, in decimal without leading zeros, and what follows it.
fn numeral(bytes: &[u8]) -> Option<(u16, &[u8])>
    ensures { Reads [] bytes.now result }
{
    let (digits, rest) = split_digits(bytes);
    match digits {
        [] => None,
        [b'0', _, ..] => None,
        _ => Some((number(digits)?, rest)),
    }
}

/// The figure that the bytes begin with, a space before it, and what follows it.
fn figure(bytes: &[u8]) -> Option<(u16, &[u8])>
    ensures { Reads (32 ∷ []) bytes.now result }
{
    match bytes {
        [b' ', rest @ ..] => numeral(rest),
        _ => None,
    }
}

/// The figures that the bytes hold, a space before each, if they are N figures and nothing else.
pub(crate) fn figures<const N: usize>(bytes: &[u8]) -> Option<[u16; N]>
    ensures { FiguresOf N bytes.now result }
{
    let mut values = [0; N];
    let mut rest = bytes;
    for value in &mut values {
        let (n, after) = figure(rest)?;
        *value = n;
        rest = after;
    }
    if rest.is_empty() { Some(values) } else { None }
}
