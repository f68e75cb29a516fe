ghost use Rattle.std.specs.Prelude.{◌≡◌, ◌||◌, ◌∷◌, []};
ghost use Rattle.std.specs.Cmp.Lexicographic.{pointwise};
ghost use Rattle.gridded.specs.CellSets.{cells_that, is_among, IsCellSet};
ghost use Rattle.gridded.specs.Orders.{gridded_eq};
ghost use Rattle.tiling_core.specs.Tiles.{IsInGrid};
ghost use Rattle.gridded.specs.Small.{point_at};
ghost use Rattle.tiling_core.specs.Patterns.{requires_list};

use gridded::{CellSet, Gridded};
use tiling_core::Tiling;

/// The set, and the cell of a list of one pattern with one point.
fn with_list(set: CellSet, patterns: &[Gridded]) -> CellSet
    requires inside { IsInGrid 8 8 patterns.now }
    requires is_set { IsCellSet set }
    ensures { result ≡ cells_that (λ c. is_among set c || pointwise gridded_eq (point_at c ∷ []) patterns.now) }
{
    if patterns.len() != 1 {
        return set;
    }
    let pattern = &patterns[0];
    if pattern.len() != 1 {
        return set;
    }
    set.with(pattern.cells()[0])
}

/// The cells whose point alone is a requirement list. Takes no memory.
pub fn required_cells(tiling: &Tiling) -> CellSet
    ensures { result ≡ cells_that (λ c. requires_list tiling.now (point_at c ∷ [])) }
{
    let mut cells = CellSet::none();
    for patterns in tiling.requirements() {
        cells = with_list(cells, patterns.as_slice());
    }
    cells
}
