ghost use Rattle.std.specs.Prelude.{◌≡◌, ◌+◌, ◌%◌, ◌<◌, ◌≤◌, length, decimal};

/// Lent memory, which is written from its front up to a place.
#[derive(Drop)]
pub(crate) struct Writer<'a> {
    pub(crate) output: &'a mut [u8],
    pub(crate) end: usize,
}

impl Writer<'_> {
    ghost use Rattle.ppm.specs.Writers.{Puts};

    /// Writes the bytes after what is written.
    pub(crate) fn put(&mut self, bytes: &[u8])
        requires { self.old.end + length bytes.now ≤ length self.old.output.now }
        ensures { Puts self.old bytes.now self.new }
    {
        let end = self.end + bytes.len();
        self.output[self.end..end].copy_from_slice(bytes);
        self.end = end;
    }

    /// Writes the number in decimal after what is written.
    pub(crate) fn put_number(&mut self, n: u16)
        requires small { n < 1000 }
        requires room { self.old.end + 3 ≤ length self.old.output.now }
        ensures { Puts self.old (decimal n) self.new }
    {
        match n {
            0..=9 => self.put(&[digit(n)]),
            10..=99 => self.put(&[digit(n / 10), digit(n)]),
            _ => self.put(&[digit(n / 100), digit(n / 10), digit(n)]),
        }
    }
}

/// The last digit of the number in decimal.
fn digit(n: u16) -> u8
    ensures { result ≡ 48 + n % 10 }
{
    b'0' + (n % 10) as u8
}
