ghost use Rattle.std.specs.Prelude.{◌≡◌, ◌≤◌, length, IfOk, IfErr, OnOk, MatchOption};
ghost use Rattle.patterns.specs.Laws.{IsPermutationOf};
ghost use Rattle.perm_core.specs.Perms.{IsPerm, IsFirstBadPlace};

use std::alloc::Global;
use std::marker::Model;
use thiserror::Error;

/// A permutation of 0 to n - 1, with n at most 9, which lies in the value itself. Contracts see it as the
/// list of its letters. Permutations are ordered by length, then by letters (docs/RULES.md,
/// "Permutations and patterns").
#[derive(Clone, Copy, Debug)]
pub struct Perm {
    letters: [u8; 9],
    len: u8,
}

impl Model for Perm {
    ghost use Rattle.std.specs.Prelude.{List, ℕ, length, take};
    ghost use Rattle.std.proofs.Common.{sym};
    ghost use Rattle.perm_core.specs.Perms.{IsInlinePerm, nine, len_of_inline};

    ghost Value = { List ℕ };

    ghost view = { λ p. take p.len p.letters };

    ghost invariant = { λ p. IsInlinePerm p.len p.letters };

    ghost inverse = { λ w. record { letters = nine w; len = length w } };

    ghost inverse_ok = { λ p h. λ i. record { letters = sym h.blank i; len = len_of_inline p.len p.letters h i } };
}

/// Why letters are no permutation.
#[derive(Debug, PartialEq, Eq, Error, Drop)]
pub enum PermFault {
    /// Some letter isn't below the length or equals an earlier one, and this is the first such place.
    #[error("the letter at place {index} is too high or repeats")]
    NotPerm { index: u32 },
    /// There was no memory.
    #[error("out of memory")]
    Memory,
}

/// The first place whose letter isn't below the length, or equals an earlier one.
fn first_bad_place(letters: &[u8]) -> Option<usize>
    ensures { MatchOption result (IsPerm letters.now) (λ k. IsFirstBadPlace letters.now k) }
{
    for (place, letter) in letters.iter().enumerate() {
        if usize::from(*letter) >= letters.len() || letters[..place].contains(letter) {
            return Some(place);
        }
    }
    None
}

impl Perm {
    ghost use Rattle.perm_core.specs.Faults.{IsRefusedAsPerm};

    /// The permutation with these letters, of which there are at most 9. Refuses `NotPerm` exactly where
    /// some letter isn't below the length or equals an earlier one, with the first such place.
    pub fn of(_alloc: Global, letters: &[u8]) -> Result<Perm, PermFault>
        requires { length letters.now ≤ 9 }
        ensures ok { IfOk result (λ p. p ≡ letters.now) }
        ensures perm { OnOk result (IsPerm letters.now) }
        ensures refused { IfErr result (λ fault. IsRefusedAsPerm letters.now fault) }
    {
        if let Some(place) = first_bad_place(letters) {
            return Err(PermFault::NotPerm {
                index: place as u32,
            });
        }
        Ok(Perm::with_letters(letters))
    }

    /// The permutation with these letters, where the caller knows that they are one.
    pub(crate) fn with_letters(letters: &[u8]) -> Perm
        requires perm { IsPerm letters.now }
        requires short { length letters.now ≤ 9 }
        ensures { result ≡ letters.now }
    {
        let len = letters.len();
        let mut own = [0; 9];
        own[..len].copy_from_slice(letters);
        Perm {
            letters: own,
            len: len as u8,
        }
    }

    /// The letters from left to right: each of 0 to n - 1 once, with n at most 9. Takes no memory.
    #[tactic(auto, using(crate::proofs::Repeats::listed_perm))]
    pub fn letters(&self) -> &[u8]
        ensures value { result.now ≡ self.now }
        ensures perm { IsPerm self.now }
        ensures listed { IsPermutationOf (length self.now) self.now }
        ensures short { length self.now ≤ 9 }
    {
        &self.letters[..self.len as usize]
    }

    /// The number of letters.
    #[tactic(auto, using(crate::specs::Perms::len_of_inline))]
    pub(crate) fn len(&self) -> u8
        ensures { result ≡ length self.now }
    {
        self.len
    }
}
