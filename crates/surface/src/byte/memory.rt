ghost use Rattle.std.specs.Prelude.{◌≡◌, ◌+◌, ◌≤◌, length};
ghost use Rattle.surface.specs.Bytes.{filled, painted};

use super::Pixels;

/// Writes the ink into the first n bytes.
pub(super) fn fill(bytes: &mut [u8], n: usize, ink: u8)
    requires { n ≤ length bytes.old }
    ensures { bytes.new ≡ filled n ink bytes.old }
{
    bytes[..n].fill(ink);
}

/// Writes the ink into the n bytes from the start on.
fn paint(memory: &mut [u8], start: usize, n: usize, ink: u8)
    requires { start + n ≤ length memory.old }
    ensures { memory.new ≡ painted start n ink memory.old }
{
    fill(&mut memory[start..], n, ink);
}

impl Pixels<'_> {
    /// Writes the ink into the n bytes from the start on.
    pub(super) fn write(&mut self, start: usize, n: usize, ink: u8)
        requires { start + n ≤ length self.old.memory.now }
        ensures bytes { self.new.memory.now ≡ painted start n ink self.old.memory.now }
        ensures len { length self.new.memory.now ≡ length self.old.memory.now }
        ensures lent { self.new.memory.ghost_name ≡ self.old.memory.ghost_name }
    {
        paint(self.memory, start, n, ink);
    }
}
