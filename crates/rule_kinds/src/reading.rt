// Calls that read values, so that what their types keep is known. None takes memory.
ghost use Rattle.std.specs.Prelude.{All};
ghost use Rattle.gridded.specs.CellSets.{IsCellSet};
ghost use Rattle.tiling_core.specs.Tiles.{AreGridded};
ghost use Rattle.rule_kinds.specs.Kinds.{IsKept, IsPointed};

use crate::kind::Kind;
use crate::pointed::Pointed;
use gridded::{CellSet, Gridded};

/// Reads each pattern.
fn read_patterns(patterns: &[Gridded])
    ensures { AreGridded patterns.now }
{
    for pattern in patterns {
        let _ = pattern.len();
    }
}

/// Reads a pointed pattern.
fn read_pointed(pointed: &Pointed)
    ensures { IsPointed pointed.now }
{
    let _ = pointed.index();
    let _ = pointed.pattern().len();
}

/// Reads each pointed pattern.
fn read_all_pointed(all: &[Pointed])
    ensures { All (λ q. IsPointed q) all.now }
{
    for pointed in all {
        read_pointed(pointed);
    }
}

/// Reads each set of cells.
fn read_sets(sets: &[CellSet])
    ensures { All (λ set. IsCellSet set) sets.now }
{
    for set in sets {
        let _ = set.count();
    }
}

/// Reads the parts of a kind, so that what their types keep is known. Takes no memory.
pub fn read_kind(kind: &Kind)
    ensures { IsKept kind.now }
{
    match kind {
        Kind::Unit | Kind::Point | Kind::Void => {}
        Kind::Insert(pattern) => {
            let _ = pattern.len();
        }
        Kind::Place(pointed, _) => read_all_pointed(pointed.as_slice()),
        Kind::RowCut(_, set) | Kind::ColumnCut(_, set) => {
            let _ = set.count();
        }
        Kind::Factor(sets) => read_sets(sets.as_slice()),
        Kind::Infer(patterns) => read_patterns(patterns.as_slice()),
    }
}
