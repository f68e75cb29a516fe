ghost use Rattle.std.specs.Prelude.{◌≡◌, IfOk, IfErr, OnOk, MatchOption, All, length, map, ◌==◌};
ghost use Rattle.std.specs.List.{list_any};
ghost use Rattle.patterns.specs.Ranks.{standardised};
ghost use Rattle.perm_core.specs.Basis.{words_of, basis_of, IsBasisWord, IsBasisText, IsBasis};
ghost use Rattle.perm_core.specs.Faults.{IsRefusedAsBasis, IsNoBasis};

use crate::flaw::{Flaw, first_flaw, is_separator};
use crate::perm::Perm;
use crate::standard::standardised;
use sequences::ascending;
use std::alloc::{AllocError, Global};
use thiserror::Error;

/// Why a text is no basis. Places are byte places from 0. Of the refusals that apply the first is answered.
#[derive(Debug, PartialEq, Eq, Error, Drop)]
pub enum BasisFault {
    /// Some word is empty.
    #[error("some word is empty")]
    Empty,
    /// The first byte that is no digit, `_` or `,`.
    #[error("the byte at place {at} is neither a digit nor a separator")]
    BadByte { at: u64 },
    /// The first byte that equals an earlier one of its word.
    #[error("the digit at place {at} repeats in its word")]
    Repeated { at: u64 },
    /// The tenth byte of the first word over 9.
    #[error("the word that the byte at place {at} belongs to is longer than 9")]
    TooLong { at: u64 },
    /// There are more than 32 words, repeats included.
    #[error("there are more than 32 words")]
    TooMany,
    /// There was no memory.
    #[error("out of memory")]
    Memory,
}

/// The words of the text, as parts of it.
fn split_words(alloc: Global, text: &[u8]) -> Result<Vec<&[u8]>, AllocError>
    ensures { IfOk result (λ words. map (λ w. w.now) words.items ≡ words_of text.now) }
{
    text.split(|byte| is_separator(*byte)).collect(alloc)
}

/// Whether some word is empty.
fn has_empty_word(words: &[&[u8]]) -> bool
    ensures { result ≡ list_any (λ w. length w == 0) (map (λ w. w.now) words.now) }
{
    words.iter().any(|word| word.is_empty())
}

/// What is wrong with the text that has these words.
fn fault_of(text: &[u8], words: &[&[u8]]) -> Option<BasisFault>
    requires { map (λ w. w.now) words.now ≡ words_of text.now }
    ensures { MatchOption result (IsBasisText text.now) (λ fault. IsRefusedAsBasis text.now fault) }
{
    if has_empty_word(words) {
        return Some(BasisFault::Empty);
    }
    if let Some(at) = first_flaw(Flaw::NoDigit, text) {
        return Some(BasisFault::BadByte { at: at as u64 });
    }
    if let Some(at) = first_flaw(Flaw::SeenBefore, text) {
        return Some(BasisFault::Repeated { at: at as u64 });
    }
    if let Some(at) = first_flaw(Flaw::PastNine, text) {
        return Some(BasisFault::TooLong { at: at as u64 });
    }
    if words.len() > 32 {
        return Some(BasisFault::TooMany);
    }
    None
}

/// The words, standardised.
fn standardised_words(alloc: Global, words: &[&[u8]]) -> Result<Vec<Perm>, AllocError>
    requires { All IsBasisWord (map (λ w. w.now) words.now) }
    ensures { IfOk result (λ perms. perms.items ≡ map standardised (map (λ w. w.now) words.now)) }
{
    let mut perms = Vec::with_capacity(alloc, words.len())?;
    for word in words {
        perms.push(standardised(word))?;
    }
    Ok(perms)
}

/// The basis that a text names: 1 to 32 words of 1 to 9 distinct digits with `_` or `,` between them,
/// each standardised, in ascending order and each once. Refuses every other text, by the first of
/// these that applies: `Empty` where some word is empty, `BadByte` at the first byte that is no digit
/// and no separator, `Repeated` at the first byte that equals an earlier one of its word, `TooLong` at
/// the tenth byte of the first word over 9, `TooMany` where there are more than 32 words, repeats
/// included (docs/FORMATS.md, "The basis").
pub fn read_basis(alloc: Global, text: &str) -> Result<Vec<Perm>, BasisFault>
    ensures ok { IfOk result (λ basis. basis.items ≡ basis_of text.now) }
    ensures text { OnOk result (IsBasisText text.now) }
    ensures basis { IfOk result (λ basis. IsBasis basis.items) }
    ensures refused { IfErr result (λ fault. IsRefusedAsBasis text.now fault) }
    ensures no_basis { IfErr result (λ fault. IsNoBasis text.now fault) }
{
    let bytes = text.as_bytes();
    let Ok(words) = split_words(alloc, bytes) else {
        return Err(BasisFault::Memory);
    };
    if let Some(fault) = fault_of(bytes, words.as_slice()) {
        return Err(fault);
    }
    let Ok(perms) = standardised_words(alloc, words.as_slice()) else {
        return Err(BasisFault::Memory);
    };
    match ascending(perms) {
        Ok(basis) => Ok(basis.into_vec()),
        Err(_) => Err(BasisFault::Memory),
    }
}
