ghost use Rattle.std.specs.Prelude.{◌≡◌, ◌≤◌, ◌↔◌, IsTrue, not};
ghost use Rattle.std.specs.List.{list_all};
ghost use Rattle.gridded.specs.Grids.{IsGridded};
ghost use Rattle.gridded.specs.Orders.{cells_of};
ghost use Rattle.tiling_core.specs.Measures.{weight};
ghost use Rattle.gridded.specs.Small.{point_at};
ghost use Rattle.tiling_core.specs.Patterns.{forbids};
ghost use Rattle.emptiness.specs.Emptiness.{IsInferable};
ghost use Rattle.emptiness.specs.Inferable.{could_be_inferred, is_inferable};

use crate::by_cell::holds_one;
use crate::inferral::is_unheld;
use gridded::Gridded;
use tiling_core::Tiling;

/// Whether a pattern is an obstruction.
fn forbids(tiling: &Tiling, pattern: &Gridded) -> bool
    ensures { result ≡ forbids tiling.now pattern.now }
{
    tiling.obstructions().iter().any(|g| *pattern == *g)
}

/// Whether no cell of a pattern has its point among the obstructions.
fn lies_in_active(tiling: &Tiling, pattern: &Gridded) -> bool
    ensures { result ≡ list_all (λ c. not (forbids tiling.now (point_at c))) (cells_of pattern.now) }
{
    pattern
        .cells()
        .iter()
        .all(|cell| !forbids(tiling, &Gridded::point_at(*cell)))
}

/// Whether a pattern has one or two points, in active cells, and holds no obstruction.
fn could_be_inferred(tiling: &Tiling, pattern: &Gridded) -> bool
    ensures tested { result ≡ could_be_inferred tiling.now pattern.now }
    ensures gridded { IsGridded pattern.now }
{
    let len = pattern.len();
    1 <= len
        && len <= 2
        && pattern.fits_grid(tiling.width(), tiling.height())
        && lies_in_active(tiling, pattern)
        && !holds_one(pattern, tiling.obstructions())
}

/// Whether a pattern has one or two points, in active cells, holds no obstruction, and no member holds it.
#[tactic(auto, using(crate::proofs::Inferring::shortness))]
fn passes(tiling: &Tiling, pattern: &Gridded) -> bool
    requires { weight tiling.now ≤ 4 }
    ensures tested { result ≡ is_inferable tiling.now pattern.now }
    ensures gridded { IsGridded pattern.now }
{
    if !could_be_inferred(tiling, pattern) {
        return false;
    }
    is_unheld(tiling, tiling.obstructions(), &[], pattern)
}

/// Whether a pattern is inferable where the weight is at most 4: it has one or two points, in active cells,
/// holds no obstruction, and no member holds it. How many cells are active doesn't matter. Takes no memory
/// (docs/RULES.md, "Emptiness").
pub fn is_inferable(tiling: &Tiling, pattern: &Gridded) -> bool
    requires { weight tiling.now ≤ 4 }
    ensures tested { result ≡ is_inferable tiling.now pattern.now }
    ensures meaning { IsTrue result ↔ IsInferable tiling.now pattern.now }
{
    passes(tiling, pattern)
}
