ghost use Rattle.std.specs.Prelude.{◌≡◌, ◌+◌, ◌<◌, ◌≤◌, IfSome, IsTrue, MatchOption, nat_lt, slice_index};
ghost use Rattle.quadratic.specs.Choosing.{group_for, NextOf, pull, Seeds};
ghost use Rattle.quadratic.specs.Split.{letter_for, next_before, remaining, seeds_before, worse as worse_lem};
ghost use Rattle.split.specs.Letters.{code_of, marks};
ghost use Rattle.split.specs.Table.{table};

use crate::letter::Letter;

// These steps take and answer plain values, so that each can be read beside its rule (docs/DECISIONS.md, "The choosing steps"): what
// there is of each group with that of A first, and places as numbers. A type for a place below nine would be taken apart at each
// index and made anew in each loop, so the helpers here and in `Sharing` ask for `< 9` in its place.

/// The fewest entries of a group of nine.
const LEAST: u16 = 3;

/// The letter of the group that an entry goes to, by the growths, the sizes and the counts of A and B.
pub fn pick_group(growths: [u32; 2], sizes: [u32; 2], counts: [u8; 2]) -> Letter
    ensures { code_of result ≡ group_for (slice_index growths 0) (slice_index growths 1) (slice_index sizes 0) (slice_index sizes 1) (slice_index counts 0) (slice_index counts 1) }
{
    if (growths[0], sizes[0], counts[0]) <= (growths[1], sizes[1], counts[1]) {
        Letter::A
    } else {
        Letter::B
    }
}

/// The letter of the next entry: a group whose count plus the remaining of nine is three gets them all; else it is picked.
#[tactic(auto, unfolding(quadratic::specs::Split::letter_for))]
pub fn pick_letter(growths: [u32; 2], sizes: [u32; 2], counts: [u8; 2]) -> Letter
    ensures value { code_of result ≡ letter_for (slice_index growths 0) (slice_index growths 1) (slice_index sizes 0) (slice_index sizes 1) (slice_index counts 0) (slice_index counts 1) }
    ensures all_to_a { slice_index counts 0 + remaining (slice_index counts 0) (slice_index counts 1) ≡ 3 → result ≡ Letter.A }
    ensures all_to_b { slice_index counts 0 + slice_index counts 1 ≤ 9 → slice_index counts 1 + remaining (slice_index counts 0) (slice_index counts 1) ≡ 3 → result ≡ Letter.B }
{
    let a = u16::from(counts[0]);
    let b = u16::from(counts[1]);
    let left = 9u16.saturating_sub(a + b);
    if a + left == LEAST {
        return Letter::A;
    }
    if b + left == LEAST {
        return Letter::B;
    }
    pick_group(growths, sizes, counts)
}

/// Whether entry i goes before the best so far: its growths differ more, or there is none yet.
fn goes_before(a: [u32; 9], b: [u32; 9], i: usize, best: Option<usize>) -> bool
    requires place { i < 9 }
    requires best { IfSome best (λ k. k < 9) }
    ensures { MatchOption best (IsTrue result) (λ k. result ≡ nat_lt (pull a b k) (pull a b i)) }
{
    best.is_none_or(|k| a[k].abs_diff(b[k]) < a[i].abs_diff(b[i]))
}

/// The entry without a letter whose growths of A and B differ most, the first such; none where all have one.
pub fn pick_next<L: Copy>(a: [u32; 9], b: [u32; 9], letters: [Option<L>; 9]) -> Option<usize>
    ensures rule { NextOf a b (marks letters) 9 result }
    ensures chosen { result ≡ next_before a b (marks letters) 9 }
{
    let mut best = None;
    for (i, letter) in letters.iter().enumerate() {
        if letter.is_none() && goes_before(a, b, i, best) {
            best = Some(i);
        }
    }
    best
}

/// Whether a pair of entries is worse together than the best pair so far.
fn worse(sizes: [u32; 9], joins: [[u32; 9]; 9], pair: (usize, usize), best: (usize, usize)) -> bool
    requires pair { (pair.0 < 9) × (pair.1 < 9) }
    requires best { (best.0 < 9) × (best.1 < 9) }
    ensures { result ≡ worse_lem sizes (table joins) pair best }
{
    let (i, j) = pair;
    let (k, l) = best;
    let here = u64::from(joins[i][j]) + (u64::from(sizes[k]) + u64::from(sizes[l]));
    let there = u64::from(joins[k][l]) + (u64::from(sizes[i]) + u64::from(sizes[j]));
    there < here
}

// By place, and not over the entries of an array: a pair of places is the answer.
/// The two entries that are worst together: the size of their join less both sizes is greatest, and they are the first such pair.
pub fn pick_seeds(sizes: [u32; 9], joins: [[u32; 9]; 9]) -> (usize, usize)
    ensures rule { Seeds sizes (table joins) 81 result.0 result.1 }
    ensures chosen { result ≡ seeds_before sizes (table joins) 81 }
{
    let mut best = (0, 1);
    for i in 0..9usize {
        for j in i + 1..9 {
            if worse(sizes, joins, (i, j), best) {
                best = (i, j);
            }
        }
    }
    best
}
