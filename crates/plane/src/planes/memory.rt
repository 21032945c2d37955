ghost use Rattle.std.specs.Prelude.{◌≡◌, ◌+◌, ◌-◌, ◌*◌, ◌/◌, ◌%◌, ◌^◌, ◌<◌, ◌≤◌, length, slice_index};
ghost use Rattle.plane.specs.Layout.{bit_of, byte_written, bits_written, planes_written};

use super::Planes;

/// 2 to the number of bits of a byte from bit i on; bit 0 is the top one.
fn above(i: usize) -> u16
    requires { i ≤ 8 }
    ensures { result ≡ 2 ^ (8 - i) }
{
    1 << (8 - i)
}

/// The byte with its bits `lo..hi` replaced by the bit.
fn write_byte(old: u8, lo: usize, hi: usize, bit: u8) -> u8
    requires order { lo ≤ hi }
    requires end { hi ≤ 8 }
    requires one { bit ≤ 1 }
    ensures { result ≡ byte_written lo hi bit old }
{
    let old = old as u16;
    let high = above(lo);
    let low = above(hi);
    let mask = high - low;
    (old / high * high + bit as u16 * mask + old % low) as u8
}

/// Gives the bit to the bits `from..to` of the bytes; bit 0 is the top one of the first byte.
fn write_bits(bytes: &mut [u8], from: usize, to: usize, bit: u8)
    requires order { from ≤ to }
    requires room { to ≤ 8 * length bytes.old }
    requires small { to < 2 ^ 32 }
    requires one { bit ≤ 1 }
    ensures { bytes.new ≡ bits_written from to bit bytes.old }
{
    // By index: tried as `iter_mut` under an adapter, of which nothing is known afterwards; and the index says which bits.
    for i in from / 8..(to + 7) / 8 {
        let lo = from.saturating_sub(8 * i);
        let hi = (to - 8 * i).min(8);
        bytes[i] = write_byte(bytes[i], lo, hi, bit);
    }
}

/// Gives the ink to n places in each of four planes of so many bits, from that bit of each plane on.
fn write_planes(bytes: &mut [u8], bits: usize, from: usize, n: usize, ink: u8)
    requires end { from + n ≤ bits }
    requires room { 4 * bits ≤ 8 * length bytes.old }
    requires small { bits < 2 ^ 24 }
    ensures { bytes.new ≡ planes_written 4 bits from n ink bytes.old }
{
    for k in 0..4usize {
        let start = k * bits + from;
        write_bits(bytes, start, start + n, (ink >> k) % 2);
    }
}

/// Bit i of a byte of the bytes.
pub(super) fn bit_at(bytes: &[u8], at: usize, i: usize) -> u8
    requires at { at < length bytes.now }
    requires bit { i < 8 }
    ensures { result ≡ bit_of (slice_index bytes.now at) i }
{
    (bytes[at] >> (7 - i)) % 2
}

impl Planes<'_> {
    /// Gives the ink to n places in each of the four planes.
    pub(super) fn write(&mut self, bits: usize, from: usize, n: usize, ink: u8)
        requires end { from + n ≤ bits }
        requires room { 4 * bits ≤ 8 * length self.old.memory.now }
        requires small { bits < 2 ^ 24 }
        ensures bytes { self.new.memory.now ≡ planes_written 4 bits from n ink self.old.memory.now }
        ensures len { length self.new.memory.now ≡ length self.old.memory.now }
        ensures lent { self.new.memory.ghost_name ≡ self.old.memory.ghost_name }
    {
        write_planes(self.memory, bits, from, n, ink);
    }
}
