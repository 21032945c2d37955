//! A table of reference cases: facts at fixed numbers, proved of the definitions that the library's contracts use.
#![tactic(auto)]

ghost use Rattle.std.specs.Prelude.{◌≡◌};
ghost use Rattle.reference.specs.Cases.{ReferenceCases, SplitCases};

/// How many cases the table has. That each of them holds is what the contract says.
pub fn reference_cases() -> usize
    ensures cases { ReferenceCases }
    ensures count { result ≡ 7 }
{
    7
}

/// How many cases the table has of the split. That each of them holds is what the contract says.
pub fn split_cases() -> usize
    ensures cases { SplitCases }
    ensures count { result ≡ 1 }
{
    1
}
