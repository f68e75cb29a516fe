ghost use Rattle.std.specs.Prelude.{◌≡◌, ◌≤◌, ◌↔◌, [], length, IfOk, IfErr, OnOk, IsTrue};
ghost use Rattle.gridded.specs.Places.{fits_grid};
ghost use Rattle.gridded.specs.Grids.{letter_of, cell_of, points, IsGridded, FitTogether, nine_letters, nine_cells};
ghost use Rattle.gridded.specs.Refused.{IsAccepted, IsRefused};
ghost use Rattle.gridded.specs.declared.fault.GriddedFault.TheVariants.{Memory};
ghost use Rattle.gridded.specs.Free.{free_of};
ghost use Rattle.gridded.specs.Orders.{letters_of, cells_of, gridded_eq, gridded_cmp};

use crate::cell::Cell;
use crate::fault::GriddedFault;
use crate::fit::check;
use crate::free::free_from;
use sequences::Copied;
use std::alloc::{AllocError, Global};
use std::marker::Model;

/// A gridded permutation of at most nine points, which lie in the value itself: letters below the length, each
/// once, in cells whose columns never fall from left to right and whose rows never fall from low to high
/// letters. Ordered by length, then letters, then cells (docs/RULES.md, "Gridded permutations").
#[derive(Clone, Copy, Debug)]
pub struct Gridded {
    len: u8,
    letters: [u8; 9],
    cells: [Cell; 9],
    free: u32,
}

impl Model for Gridded {
    ghost use Rattle.std.specs.Prelude.{List, take};
    ghost use Rattle.gridded.specs.Grids.{Point, points, FitTogether, IsInline};

    ghost Value = { List Point };

    ghost view = { λ g. points (take g.len g.letters) (take g.len g.cells) };

    ghost invariant = { λ g. IsInline g.len g.letters g.cells g.free };

    ghost use Rattle.std.specs.Prelude.{length};
    ghost use Rattle.gridded.specs.Grids.{nine_letters, nine_cells};
    ghost use Rattle.gridded.specs.Orders.{letters_of, cells_of};
    ghost use Rattle.gridded.specs.Free.{free_of};
    ghost use Rattle.gridded.specs.Inverses.{inverse_letters, inverse_cells, inverse_free, inverse_len};

    ghost inverse = { λ g. record { letters = nine_letters (letters_of g); cells = nine_cells (cells_of g); free = free_of (cells_of g); len = length g } };

    ghost inverse_ok = { λ g h. λ i. record { letters = inverse_letters g.len g.letters g.cells g.free h i; cells = inverse_cells g.len g.letters g.cells g.free h i; free = inverse_free g.len g.letters g.cells g.free h i; len = inverse_len g.len g.letters g.cells g.free h i } };
}

#[tactic(auto, using(crate::proofs::Points::fields))]
impl Gridded {
    /// The gridded permutation with these letters and cells from left to right, where there are at most 9
    /// letters. The first refusal that applies is answered, each exactly where `GriddedFault` says; a gridded
    /// permutation is refused for want of memory alone (docs/RULES.md, "Gridded permutations").
    pub fn of(_alloc: Global, letters: &[u8], cells: &[Cell]) -> Result<Gridded, GriddedFault>
        requires { length letters.now ≤ 9 }
        ensures value { IfOk result (λ g. g ≡ points letters.now cells.now) }
        ensures accepted { OnOk result (IsAccepted letters.now cells.now) }
        ensures fit { OnOk result (FitTogether letters.now cells.now) }
        ensures refused { IfErr result (λ fault. IsRefused letters.now cells.now fault) }
        ensures made { FitTogether letters.now cells.now → IfErr result (λ fault. fault ≡ Memory) }
    {
        match check(letters, cells) {
            Ok(()) => Ok(Gridded::from_consistent(letters, cells)),
            Err(fault) => Err(fault),
        }
    }

    /// The same, where the caller knows that letters and cells fit together. Takes no memory.
    #[tactic(auto, using(crate::proofs::Points::making))]
    pub fn from_consistent(letters: &[u8], cells: &[Cell]) -> Gridded
        requires { FitTogether letters.now cells.now }
        ensures { result ≡ points letters.now cells.now }
    {
        let len = letters.len();
        let mut own_letters = [0; 9];
        let mut own_cells = [Cell { x: 0, y: 0 }; 9];
        own_letters[..len].copy_from_slice(letters);
        own_cells[..len].copy_from_slice(cells);
        Gridded {
            letters: own_letters,
            cells: own_cells,
            free: free_from(cells, 0),
            len: len as u8,
        }
    }

    /// The letters from left to right, each below the length, each once. Takes no memory.
    pub fn letters(&self) -> &[u8]
        ensures value { result.now ≡ letters_of self.now }
        ensures short { length self.now ≤ 9 }
        ensures gridded { IsGridded self.now }
    {
        &self.letters[..self.len as usize]
    }

    /// The cells of the points from left to right. Takes no memory.
    pub fn cells(&self) -> &[Cell]
        ensures value { result.now ≡ cells_of self.now }
        ensures short { length self.now ≤ 9 }
        ensures gridded { IsGridded self.now }
    {
        &self.cells[..self.len as usize]
    }

    /// The letters at nine places, 0 past the end.
    pub(crate) fn nine_letters(&self) -> &[u8; 9]
        ensures { result.now ≡ nine_letters (letters_of self.now) }
    {
        &self.letters
    }

    /// The cells at nine places, the corner past the end.
    pub(crate) fn nine_cells(&self) -> &[Cell; 9]
        ensures { result.now ≡ nine_cells (cells_of self.now) }
    {
        &self.cells
    }

    /// The bits that no cell has.
    pub(crate) fn free(&self) -> u32
        ensures { result ≡ free_of (cells_of self.now) }
    {
        self.free
    }

    /// Whether there is no point. Takes no memory.
    pub fn is_empty(&self) -> bool
        ensures { IsTrue result ↔ (self.now ≡ []) }
    {
        self.len() == 0
    }

    /// Whether the cells lie in a grid of so many columns and rows. Takes no memory.
    pub fn fits_grid(&self, width: u8, height: u8) -> bool
        ensures { result ≡ fits_grid width height self.now }
    {
        self.cells()
            .iter()
            .all(|cell| cell.x < width && cell.y < height)
    }

    /// How many points there are, at most 9. Takes no memory.
    pub fn len(&self) -> u32
        ensures value { result ≡ length self.now }
        ensures short { length self.now ≤ 9 }
        ensures gridded { IsGridded self.now }
    {
        self.len as u32
    }
}

impl Copied for Gridded {
    fn copy(&self, _alloc: Global) -> Result<Gridded, AllocError> {
        Ok(*self)
    }

    fn copy_all(items: &[Gridded], alloc: Global) -> Result<Vec<Gridded>, AllocError> {
        Vec::from_slice(alloc, items)
    }
}
