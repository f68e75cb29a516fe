ghost use Rattle.std.specs.Prelude.{◌≡◌, ℕ, IfOk, IfErr, IfSome, IsNone, option_map};
ghost use Rattle.command_words.specs.Requests.{IsNumberIn, GivesNumber, GivesPacks, GivesBasis, IsGivenNoBasis};

use itoa::Buffer;
use perm_core::{BasisFault, Perm, read_basis};
use std::alloc::Global;
use work_packs::Packs;

/// The letters of the strategies that are tried where the words do not say.
pub const ALL_LETTERS: Packs = Packs {
    i: true,
    r: true,
    c: true,
    p: true,
    f: true,
    s: true,
    n: true,
};

/// A range of numbers, and the number where none is given.
#[derive(Clone, Copy)]
pub(crate) struct Range {
    pub(crate) least: u32,
    pub(crate) most: u32,
    pub(crate) default: u32,
}

/// The number within a range whose decimal text this is, without sign or leading zeros; None where there is none.
fn number_in(text: &str, least: u32, most: u32) -> Option<u32>
    ensures some { IfSome result (λ n. IsNumberIn least most text.now n) }
    ensures none { IsNone result → (n : ℕ) → IsNumberIn least most text.now n → ⊥ }
{
    let Ok(number) = text.parse::<u32>() else {
        return None;
    };
    if number < least {
        return None;
    }
    if number > most {
        return None;
    }
    let mut buffer = Buffer::new();
    if buffer.format(number) != text {
        return None;
    }
    Some(number)
}

/// The number that is given, or the default where none is; None where what is given is no number of the range.
pub(crate) fn given_number(given: Option<&str>, range: Range) -> Option<u32>
    ensures some { IfSome result (λ n. GivesNumber range.least range.most range.default (option_map (λ s. s.now) given.entry) n) }
    ensures none { IsNone result → (n : ℕ) → GivesNumber range.least range.most range.default (option_map (λ s. s.now) given.entry) n → ⊥ }
{
    match given {
        Some(text) => number_in(text, range.least, range.most),
        None => Some(range.default),
    }
}

/// The pack that is given, or all letters where none is; None where what is given is no pack.
pub(crate) fn given_packs(given: Option<&str>) -> Option<Packs>
    ensures some { IfSome result (λ packs. GivesPacks (option_map (λ s. s.now) given.entry) packs) }
    ensures none { IsNone result → (packs : Packs) → GivesPacks (option_map (λ s. s.now) given.entry) packs → ⊥ }
{
    match given {
        Some(text) => Packs::read(text),
        None => Some(ALL_LETTERS),
    }
}

/// The basis that is given, or the empty one where none is. The refusals are those of `read_basis`.
pub(crate) fn given_basis(alloc: Global, given: Option<&str>) -> Result<Vec<Perm>, BasisFault>
    ensures ok { IfOk result (λ basis. GivesBasis (option_map (λ s. s.now) given.entry) basis.items) }
    ensures refused { IfErr result (λ fault. IsGivenNoBasis (option_map (λ s. s.now) given.entry) fault) }
{
    match given {
        Some(text) => read_basis(alloc, text),
        None => Ok(Vec::new(alloc)),
    }
}
