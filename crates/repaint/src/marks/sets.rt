ghost use Rattle.std.specs.Prelude.{◌≡◌, ℕ, false, ◌&&◌, ◌||◌, if◌then◌else◌, None, ◌==◌, nat_lt};
ghost use Rattle.painting.specs.Scenes.{at_number};
ghost use Rattle.book.specs.Past.{listed};
ghost use Rattle.repaint.specs.Marked.{marked};

use super::Marks;
use painting::scene::inks::entry_at;

impl Marks {
    /// No number is marked.
    pub fn none() -> Marks
        ensures { (n : ℕ) → marked result n ≡ false }
    {
        Marks {
            flags: [false; 256],
        }
    }

    /// Whether the number is marked.
    pub fn has(&self, n: u16) -> bool
        ensures { result ≡ marked self.now n }
    {
        self.flags.get(n as usize).copied().unwrap_or(false)
    }

    /// Marks the number, if it is below 256.
    pub(super) fn put(&mut self, n: u32)
        ensures { (k : ℕ) → marked self.new k ≡ (marked self.old k || (nat_lt k 256 && k == n)) }
    {
        if n < 256 {
            self.flags[n as usize] = true;
        }
    }

    /// The numbers below 256 that a list has, in any order.
    pub(crate) fn of(found: &[u16]) -> Marks
        ensures { (n : ℕ) → marked result n ≡ (nat_lt n 256 && listed found.now n) }
    {
        let mut marks = Marks::none();
        for n in found {
            marks.put(*n as u32);
        }
        marks
    }

    /// What stands at a number of a table, if the number is marked.
    pub(crate) fn pick<T: Copy>(&self, table: &[Option<T>], n: u16) -> Option<T>
        ensures { result ≡ (if marked self.now n then at_number table.now n else None) }
    {
        if self.has(n) {
            entry_at(table, n as usize)
        } else {
            None
        }
    }
}
