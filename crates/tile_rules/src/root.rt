ghost use Rattle.std.specs.Prelude.{◌≡◌, IfOk, map};
ghost use Rattle.tiling_core.specs.Roots.{in_one_cell, root_of};
ghost use Rattle.tile_rules.specs.Avoiding.{CountsAvoiders, HasNoEmptyWord};

use gridded::{Cell, Gridded};
use perm_core::Perm;
use std::alloc::{AllocError, Global};
use tiling_core::{Tiling, root_counts_avoiders};

/// The cell of a grid of one column and one row.
const CORNER: Cell = Cell { x: 0, y: 0 };

/// The word with all its letters in the corner.
#[tactic(auto, using(crate::proofs::OneCell::placing))]
fn in_one_cell(word: &Perm) -> Gridded
    ensures { result ≡ in_one_cell word.now }
{
    let letters = word.letters();
    Gridded::from_consistent(letters, &[CORNER; 9][..letters.len()])
}

/// The words with all their letters in the corner.
fn all_in_one_cell(alloc: Global, basis: &[Perm]) -> Result<Vec<Gridded>, AllocError>
    ensures { IfOk result (λ patterns. patterns.items ≡ map in_one_cell basis.now) }
{
    let mut patterns = Vec::with_capacity(alloc, basis.len())?;
    for word in basis {
        patterns.push(in_one_cell(word))?;
    }
    Ok(patterns)
}

/// The 1x1 tiling of the words in one cell.
#[tactic(auto, using(crate::proofs::OneCell::inside))]
fn tiling_of_words(alloc: Global, basis: &[Perm]) -> Result<Tiling, AllocError>
    ensures { IfOk result (λ t. t ≡ root_of basis.now) }
{
    let obstructions = all_in_one_cell(alloc, basis)?;
    Tiling::in_grid(1, 1, obstructions, Vec::new(alloc))
}

/// The 1x1 tiling of a basis, no word of which is empty: its obstructions are the words, with all their letters
/// in the one cell, and its members of length n are the permutations of length n that avoid the basis
/// (docs/RULES.md, "Tilings"). The refusal is want of memory.
pub fn root_raw(alloc: Global, basis: &[Perm]) -> Result<Tiling, AllocError>
    requires { HasNoEmptyWord basis.now }
    ensures made { IfOk result (λ t. t ≡ root_of basis.now) }
    ensures counts { IfOk result (λ t. CountsAvoiders basis.now t) }
{
    root_counts_avoiders();
    let tiling = tiling_of_words(alloc, basis)?;
    Ok(tiling)
}
