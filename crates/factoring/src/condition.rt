ghost use Rattle.std.specs.Prelude.{◌≡◌, ◌&&◌, ◌||◌, ◌==◌, ◌∷◌, [], nat_le, length};
ghost use Rattle.std.specs.List.{list_all, list_any};
ghost use Rattle.gridded.specs.CellSets.{is_among};
ghost use Rattle.gridded.specs.Parts.{lies_in};
ghost use Rattle.lists.specs.Members.{is_nil};
ghost use Rattle.rule_kinds.specs.Conditions.{bundles, is_factoring, is_whole, keeps_together};
ghost use Rattle.factoring.specs.Shares.{is_in_one};

use crate::cells::lie_in;
use crate::lines::keeps_lines;
use crate::sharing::shares_out;
use gridded::{CellSet, Gridded};
use sequences::Sequence;
use tiling_core::{Tiling, active};

/// Whether some pattern has no point.
fn has_empty(patterns: &[Gridded]) -> bool
    ensures { result ≡ list_any is_nil patterns.now }
{
    patterns.iter().any(|g| g.len() == 0)
}

/// Whether there are patterns, each with a point.
fn is_whole(patterns: &[Gridded]) -> bool
    ensures { result ≡ is_whole patterns.now }
{
    patterns.len() != 0 && !has_empty(patterns)
}

/// Whether one of the sets has all points of the patterns.
fn some_has_all(sets: &[CellSet], patterns: &[Gridded]) -> bool
    ensures { result ≡ list_any (λ set. list_all (lies_in (is_among set)) patterns.now) sets.now }
{
    sets.iter().any(|set| lie_in(*set, patterns))
}

/// Whether there are patterns, each with a point, and one of the sets has all points.
fn is_in_one(sets: &[CellSet], patterns: &[Gridded]) -> bool
    ensures { result ≡ is_in_one sets.now patterns.now }
{
    is_whole(patterns) && some_has_all(sets, patterns)
}

/// Whether a pattern is a single point, or has points, all in one of the sets.
fn is_kept(sets: &[CellSet], g: &Gridded) -> bool
    ensures { result ≡ (length g.now == 1 || is_in_one sets.now (g.now ∷ [])) }
{
    g.len() == 1 || is_in_one(sets, &[*g])
}

/// Whether each pattern but for single points has points, all in one of the sets.
fn are_kept(sets: &[CellSet], patterns: &[Gridded]) -> bool
    ensures { result ≡ list_all (λ g. length g == 1 || is_in_one sets.now (g ∷ [])) patterns.now }
{
    patterns.iter().all(|g| is_kept(sets, g))
}

/// Whether each list has patterns with points, all in one of the sets.
fn lists_are_kept(sets: &[CellSet], lists: &[Sequence<Gridded>]) -> bool
    ensures { result ≡ list_all (is_in_one sets.now) lists.now }
{
    lists
        .iter()
        .all(|patterns| is_in_one(sets, patterns.as_slice()))
}

/// Whether each bundle has points, all in one of the sets.
#[tactic(auto, using(crate::proofs::Bundles::bundles_apart))]
fn keeps_bundles(tiling: &Tiling, sets: &[CellSet]) -> bool
    ensures { result ≡ list_all (is_in_one sets.now) (bundles tiling.now) }
{
    are_kept(sets, tiling.obstructions()) && lists_are_kept(sets, tiling.requirements())
}

/// Whether cells of one line, and the points of one bundle, share a set.
fn keeps_together(tiling: &Tiling, sets: &[CellSet]) -> bool
    ensures { result ≡ keeps_together tiling.now sets.now }
{
    keeps_lines(sets, active(tiling)) && keeps_bundles(tiling, sets)
}

/// Whether the sets make a factoring of two factors or more: they are not empty, share out the active cells in the
/// order of their least cells, and cells of one column or row, the points of each obstruction other than a single
/// point, and those of each requirement list share a set; none of these patterns and lists is empty. Takes no memory
/// (docs/RULES.md, "Kinds of rules").
pub fn can_factor(tiling: &Tiling, sets: &[CellSet]) -> bool
    ensures { result ≡ (nat_le 2 (length sets.now) && is_factoring tiling.now sets.now) }
{
    2 <= sets.len() && (shares_out(sets, active(tiling)) && keeps_together(tiling, sets))
}
