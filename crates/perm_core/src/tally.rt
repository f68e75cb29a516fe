ghost use Rattle.std.specs.Prelude.{◌≡◌, ◌-◌, ◌<◌, ◌≤◌, IfOk, IsTrue, take};
ghost use Rattle.patterns.specs.Occurs.{avoids, avoiders};
ghost use Rattle.patterns.specs.Words.{has_no_repeats};
ghost use Rattle.perm_core.specs.Tally.{tally_of};

use crate::contain::word_contains;
use crate::perm::Perm;
use std::alloc::{AllocError, Global};

/// Whether a word without repeats contains no word of the basis.
fn avoids(basis: &[Perm], word: &[u8]) -> bool
    requires { IsTrue (has_no_repeats word.now) }
    ensures { result ≡ avoids basis.now word.now }
{
    basis
        .iter()
        .all(|pattern| !word_contains(word, pattern.letters()))
}

/// How many permutations begin with some letters and avoid the basis.
fn tally(basis: &[Perm], word: [u8; 9], taken: usize, n: usize) -> u64
    requires within { taken ≤ n }
    requires short { n ≤ 9 }
    requires fresh { IsTrue (has_no_repeats (take taken word)) }
    ensures { result ≡ tally_of basis.now n (take taken word) (n - taken) }
{
    if taken == n {
        return if avoids(basis, &word[..taken]) { 1 } else { 0 };
    }
    let mut total = 0u64;
    for letter in 0..n as u8 {
        if !word[..taken].contains(&letter) {
            let mut longer = word;
            longer[taken] = letter;
            total += tally(basis, longer, taken + 1, n);
        }
    }
    total
}

/// How many permutations of length n, which is at most 9, contain no word of the basis, by going through
/// all of them (docs/RULES.md, "Permutations and patterns").
pub fn count_avoiders(_alloc: Global, basis: &[Perm], n: u8) -> Result<u64, AllocError>
    requires { n ≤ 9 }
    ensures { IfOk result (λ count. count ≡ avoiders basis.now n) }
{
    Ok(tally(basis, [0; 9], 0, usize::from(n)))
}
