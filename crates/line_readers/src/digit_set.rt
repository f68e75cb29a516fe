ghost use Rattle.std.specs.Prelude.{◌≡◌, true};
ghost use Rattle.spec_lines.specs.Forms.{is_set};
ghost use Rattle.spec_lines.specs.Ranges.{is_small};
ghost use Rattle.spec_lines.specs.Readings.{set_at};
ghost use Rattle.line_readers.specs.Kept.{where_it};

use crate::ascending::ascends;
use crate::cells::are_small;
use crate::cuts::Items;
use crate::narrow::Wide;
use crate::spelt::{Spelt, read_all};
use gridded::{Cell, CellSet};
use sequences::Sequence;
use std::alloc::{AllocError, Global};
use std::marker::Model;

/// A set of cells of two digits. Contracts see the ascending list of its cells.
#[derive(Drop)]
pub(crate) struct DigitSet {
    cells: Sequence<Cell>,
}

impl Model for DigitSet {
    ghost use Rattle.std.specs.Prelude.{◌≡◌, true, List};
    ghost use Rattle.gridded.specs.declared.cell.Cell.{Cell};
    ghost use Rattle.spec_lines.specs.Forms.{is_set};

    ghost Value = { List Cell };

    ghost view = { λ s. s.cells };

    ghost invariant = { λ s. is_set s.cells ≡ true };
}

impl Spelt for DigitSet {
    ghost spelt = { λ t. where_it is_set (set_at t) };

    fn read(alloc: Global, text: &[u8]) -> Result<Option<DigitSet>, AllocError> {
        let Some(cells) = read_all::<Cell>(alloc, Items::of(text, b'.'))? else {
            return Ok(None);
        };
        if !ascends(cells.as_slice()) {
            return Ok(None);
        }
        Ok(Some(DigitSet { cells }))
    }
}

impl DigitSet {
    /// The cells, ascending.
    fn cells(&self) -> &[Cell]
        ensures value { result.now ≡ self.now }
        ensures set { is_set self.now ≡ true }
    {
        self.cells.as_slice()
    }
}

/// The set of cells whose digits are at most 7.
fn set_of(cells: &[Cell]) -> CellSet
    requires set { is_set cells.now ≡ true }
    requires small { is_small cells.now ≡ true }
    ensures { result ≡ cells.now }
{
    let mut set = CellSet::none();
    for cell in cells {
        set = set.with(*cell);
    }
    set
}

impl Wide for DigitSet {
    type Narrow = CellSet;

    ghost fits = { is_small };

    ghost wide = { λ set. set };

    fn narrow(&self, _alloc: Global) -> Result<Option<CellSet>, AllocError> {
        let cells = self.cells();
        if !are_small(cells) {
            return Ok(None);
        }
        Ok(Some(set_of(cells)))
    }
}
