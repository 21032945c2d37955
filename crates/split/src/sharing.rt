ghost use Rattle.std.specs.Prelude.{◌≡◌, ◌+◌, length};
ghost use Rattle.quadratic.specs.Sharing.{tally};
ghost use Rattle.split.specs.Letters.{codes};

use crate::choose::{pick_letter, pick_next};
use crate::group::Group;
use crate::letter::Letter;
use crate::nine::Nine;
use extent::extent::Measured;

/// How nine entries are shared out so far: the letter of each that has one, and the two groups, which count the letters.
#[derive(Drop)]
pub(crate) struct Sharing<M> {
    pub(crate) letters: [Option<Letter>; 9],
    pub(crate) a: Group<M>,
    pub(crate) b: Group<M>,
    // An array in a field does not show a proof its length.
    ghost nine: { length letters ≡ 9 },
    ghost counted: { tally 0 (codes letters) + (a.count + b.count) ≡ 9 },
}

impl<M: Measured + Copy> Sharing<M> {
    ghost use Rattle.std.specs.Prelude.{◌<◌, slice_index};
    ghost use Rattle.quadratic.specs.Split.{started, next, goes_to_a, given, shared_one};
    ghost use Rattle.split.specs.Nine.{extent_at};
    ghost use Rattle.split.specs.Sharing.{groups_of};

    /// Each of the two seeds starts a group.
    #[tactic(auto, using(crate::proofs::Letters::codes_set), unfolding(quadratic::specs::Split::started))]
    pub(crate) fn start(nine: &Nine<M>, seeds: (usize, usize)) -> Self
        requires { (seeds.0 < seeds.1) × (seeds.1 < 9) }
        ensures { groups_of result ≡ started M.Measured.measure M.Extent.joined (extent_at nine.now) seeds }
    {
        let (i, j) = seeds;
        let mut letters = [None; 9];
        letters[i] = Some(Letter::A);
        letters[j] = Some(Letter::B);
        Sharing {
            letters,
            a: Group::one(nine.nth(i)),
            b: Group::one(nine.nth(j)),
        }
    }

    /// Entry i, which has no letter yet, goes to its group.
    fn give(self, nine: &Nine<M>, i: usize) -> Self
        requires place { i < 9 }
        requires free { slice_index (codes self.letters) i ≡ 0 }
        ensures { groups_of result ≡ given M.Measured.measure M.Extent.joined (extent_at nine.now) (groups_of self) i (goes_to_a M.Measured.measure M.Extent.joined (extent_at nine.now) (groups_of self) i) }
    {
        let Sharing { mut letters, a, b } = self;
        let extent = nine.nth(i);
        let letter = pick_letter(
            [a.extent.growth(&extent), b.extent.growth(&extent)],
            [a.extent.size(), b.extent.size()],
            [a.count, b.count],
        );
        letters[i] = Some(letter);
        let (a, b) = match letter {
            Letter::A => (a.with(&extent), b),
            Letter::B => (a, b.with(&extent)),
        };
        Sharing { letters, a, b }
    }

    /// The next entry goes to its group, if one has none yet.
    pub(crate) fn share_one(self, nine: &Nine<M>) -> Self
        ensures { groups_of result ≡ shared_one M.Measured.measure M.Extent.joined (extent_at nine.now) (groups_of self) (next M.Measured.measure M.Extent.joined (extent_at nine.now) (groups_of self)) }
    {
        let a = nine.growths(&self.a.extent);
        let b = nine.growths(&self.b.extent);
        match pick_next(a, b, self.letters) {
            Some(i) => self.give(nine, i),
            None => self,
        }
    }
}
