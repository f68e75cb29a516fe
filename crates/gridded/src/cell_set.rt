ghost use Rattle.std.specs.Prelude.{◌≡◌, ◌<◌, ◌↔◌, [], length, slice_get, IsTrue, IsNone, IfSome, IfOk};
ghost use Rattle.std.specs.Cmp.{partial_equiv_from_equiv};
ghost use Rattle.lists.specs.Members.{IsIn};
ghost use Rattle.gridded.specs.CellSets.{bit_of, is_among, with_cell, IsCellSet, HasOneMore, IsLeast};
ghost use Rattle.gridded.specs.CellSetOrder.{set_eq, set_equiv};

use crate::cell::Cell;
use crate::set_cells::cells_of;
use sequences::Copied;
use std::alloc::{AllocError, Global};
use std::marker::Model;

/// A set of cells with x and y below 8: bit 8x + y stands for (x, y). Contracts see the ascending list of its
/// cells, by x and then y. Only `cells` takes memory.
#[derive(Clone, Copy, Debug)]
pub struct CellSet {
    bits: u64,
}

impl Model for CellSet {
    ghost use Rattle.std.specs.Prelude.{List, ◌<◌, ◌^◌};
    ghost use Rattle.gridded.specs.declared.cell.Cell.{Cell};
    ghost use Rattle.gridded.specs.CellSets.{cells_with_bits, bits_of};
    ghost use Rattle.gridded.specs.CellBits.{bits_back};

    ghost Value = { List Cell };

    ghost view = { λ s. cells_with_bits s.bits };

    ghost invariant = { λ s. s.bits < 2 ^ 64 };

    ghost inverse = { λ cells. record { bits = bits_of cells } };

    ghost inverse_ok = { λ s h. λ i. record { bits = bits_back s.bits h i } };
}

/// The number of a cell's bit.
fn bit_of(cell: Cell) -> u32
    requires left { cell.x < 8 }
    requires low { cell.y < 8 }
    ensures { result ≡ bit_of cell }
{
    cell.x as u32 * 8 + cell.y as u32
}

impl CellSet {
    /// The set with no cell.
    pub fn none() -> CellSet
        ensures { result ≡ [] }
    {
        CellSet { bits: 0 }
    }

    /// The set with one more cell, whose x and y are below 8.
    pub fn with(self, cell: Cell) -> CellSet
        requires left { cell.x < 8 }
        requires low { cell.y < 8 }
        ensures value { result ≡ with_cell self cell }
        ensures cells { HasOneMore self cell result }
        ensures set { IsCellSet result }
    {
        CellSet {
            bits: self.bits | 1 << bit_of(cell),
        }
    }

    /// Whether a cell, whose x and y are below 8, is in the set.
    pub fn has(self, cell: Cell) -> bool
        requires left { cell.x < 8 }
        requires low { cell.y < 8 }
        ensures tested { result ≡ is_among self cell }
        ensures meaning { IsTrue result ↔ IsIn cell self }
    {
        self.bits >> bit_of(cell) & 1 == 1
    }

    /// Whether any cell is in the set.
    pub(crate) fn contains(self, cell: Cell) -> bool
        ensures { result ≡ is_among self cell }
    {
        let bits = self.bits;
        if cell.x > 7 {
            return false;
        }
        if cell.y > 7 {
            return false;
        }
        bits >> bit_of(cell) & 1 == 1
    }

    /// Whether no cell is in the set.
    pub fn is_empty(self) -> bool
        ensures { IsTrue result ↔ (self ≡ []) }
    {
        self.least().is_none()
    }

    /// The cells of the set, ascending by x and then y.
    pub fn cells(self, alloc: Global) -> Result<Vec<Cell>, AllocError>
        ensures { IfOk result (λ cells. cells.items ≡ self) }
    {
        let _ = self.count();
        cells_of(alloc, self)
    }

    /// How many cells the set has.
    pub fn count(self) -> u32
        ensures value { result ≡ length self }
        ensures set { IsCellSet self }
    {
        self.bits.count_ones()
    }

    /// The least cell by x, then y; None exactly where the set is empty.
    pub fn least(self) -> Option<Cell>
        ensures value { result ≡ slice_get self 0 }
        ensures least { IfSome result (λ cell. IsLeast cell self) }
        ensures empty { IsNone result ↔ (self ≡ []) }
        ensures set { IsCellSet self }
    {
        if self.bits == 0 {
            return None;
        }
        let bit = self.bits.trailing_zeros();
        Some(Cell {
            x: (bit / 8) as u8,
            y: (bit % 8) as u8,
        })
    }
}

impl PartialEq for CellSet {
    ghost eq = { set_eq };

    ghost laws = { partial_equiv_from_equiv set_equiv };

    fn eq(&self, other: &CellSet) -> bool
        ensures value { result ≡ set_eq self.now other.now }
        ensures exact { IsTrue result ↔ (self.now ≡ other.now) }
    {
        self.bits == other.bits
    }
}

impl Eq for CellSet {
    ghost laws = { set_equiv };
}

impl Copied for CellSet {
    fn copy(&self, _alloc: Global) -> Result<CellSet, AllocError> {
        Ok(*self)
    }
}
