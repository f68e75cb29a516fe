ghost use Rattle.std.specs.Prelude.{◌≡◌, ◌≤◌, length, IfOk, IfErr, OnOk, MatchOption};
ghost use Rattle.patterns.specs.Occurs.{IsSameOrder};
ghost use Rattle.patterns.specs.Ranks.{rank, standardised};
ghost use Rattle.perm_core.specs.Perms.{IsDistinct, IsFirstRepeat};
ghost use Rattle.perm_core.specs.Faults.{IsRefusedAsDigits};

use crate::perm::Perm;
use std::alloc::Global;
use thiserror::Error;

/// Why digits are not standardised.
#[derive(Debug, PartialEq, Eq, Error, Drop)]
pub enum DigitFault {
    /// Some digit equals an earlier one, and this is the first such place.
    #[error("the digit at place {index} repeats")]
    Repeated { index: u32 },
    /// There was no memory.
    #[error("out of memory")]
    Memory,
}

/// The first place whose digit equals an earlier one.
fn first_repeat(digits: &[u8]) -> Option<usize>
    ensures { MatchOption result (IsDistinct digits.now) (λ k. IsFirstRepeat digits.now k) }
{
    for (place, digit) in digits.iter().enumerate() {
        if digits[..place].contains(digit) {
            return Some(place);
        }
    }
    None
}

/// How many of the digits are smaller.
fn rank(digits: &[u8], digit: u8) -> usize
    ensures { result ≡ rank digits.now digit }
{
    digits.iter().filter(|other| **other < digit).count()
}

/// The permutation in the relative order of distinct digits, of which there are at most 9.
#[tactic(auto, using(crate::proofs::Standards::ranking))]
pub(crate) fn standardised(digits: &[u8]) -> Perm
    requires distinct { IsDistinct digits.now }
    requires short { length digits.now ≤ 9 }
    ensures { result ≡ standardised digits.now }
{
    let mut letters = [0u8; 9];
    for (place, digit) in digits.iter().enumerate() {
        letters[place] = rank(digits, *digit) as u8;
    }
    Perm::with_letters(&letters[..digits.len()])
}

/// The permutation with the relative order of these digits, of which there are at most 9. Refuses
/// `Repeated` exactly where some digit equals an earlier one, with the first such place
/// (docs/RULES.md, "Permutations and patterns").
pub fn standardise(_alloc: Global, digits: &[u8]) -> Result<Perm, DigitFault>
    requires { length digits.now ≤ 9 }
    ensures ok { IfOk result (λ p. p ≡ standardised digits.now) }
    ensures order { IfOk result (λ p. IsSameOrder p digits.now) }
    ensures distinct { OnOk result (IsDistinct digits.now) }
    ensures refused { IfErr result (λ fault. IsRefusedAsDigits digits.now fault) }
{
    match first_repeat(digits) {
        Some(place) => Err(DigitFault::Repeated {
            index: place as u32,
        }),
        None => Ok(standardised(digits)),
    }
}
