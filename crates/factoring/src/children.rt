ghost use Rattle.std.specs.Prelude.{◌≡◌, ◌≤◌, ◌<◌, ◌&&◌, ◌++◌, true, false, not, nat_le, length, map, filter, IfOk, IfErr, OnOk};
ghost use Rattle.std.specs.List.{list_all};
ghost use Rattle.gridded.specs.CellSets.{is_among};
ghost use Rattle.gridded.specs.Parts.{lies_in};
ghost use Rattle.gridded.specs.Small.{point_at};
ghost use Rattle.rule_kinds.specs.Children.{factor, raw_children};
ghost use Rattle.rule_kinds.specs.Conditions.{applies, is_factoring};
ghost use Rattle.rule_kinds.specs.Lines.{cells_of_grid};
ghost use Rattle.rule_kinds.specs.declared.kind.Kind.TheVariants as kind;
ghost use Rattle.factoring.specs.Building.{is_factor, IsRefused};
ghost use Rattle.factoring.specs.Outside.{barred_at, barred_in};

use crate::cells::{contains, lie_in, lies_in};
use crate::condition::can_factor;
use gridded::{Cell, CellSet, Gridded};
use rule_kinds::{Kind, RawFault};
use sequences::{Copied, Sequence};
use std::alloc::{AllocError, Global};
use tiling_core::Tiling;

/// Adds the point at a cell that is not in the set.
fn add_at(points: &mut Vec<Gridded>, set: CellSet, cell: Cell) -> Result<(), AllocError>
    ensures { OnOk result (points.new.items ≡ points.old.items ++ barred_at set cell) }
{
    if !contains(set, cell) {
        points.push(Gridded::point_at(cell))?;
    }
    Ok(())
}

/// Adds the points at the cells of a column that are not in the set.
fn add_column(points: &mut Vec<Gridded>, set: CellSet, x: u8, height: u8) -> Result<(), AllocError>
    ensures { OnOk result (points.new.items ≡ points.old.items ++ barred_in set x height) }
{
    for y in 0..height {
        add_at(points, set, Cell { x, y })?;
    }
    Ok(())
}

/// The points at the cells of the grid that are not in the set.
fn barred(alloc: Global, tiling: &Tiling, set: CellSet) -> Result<Vec<Gridded>, AllocError>
    ensures { IfOk result (λ points. points.items ≡ map point_at (filter (λ c. not (is_among set c)) (cells_of_grid tiling.now))) }
{
    let mut points = Vec::new(alloc);
    for x in 0..tiling.width() {
        add_column(&mut points, set, x, tiling.height())?;
    }
    Ok(points)
}

/// The obstructions with all points in the set.
fn obstructions_in(alloc: Global, tiling: &Tiling, set: CellSet) -> Result<Vec<Gridded>, AllocError>
    ensures { IfOk result (λ kept. kept.items ≡ filter (lies_in (is_among set)) tiling.now.obstructions) }
{
    tiling
        .obstructions()
        .iter()
        .copied()
        .filter(|g| lies_in(set, g))
        .collect(alloc)
}

/// The lists with all points in the set.
fn lists_in(
    alloc: Global,
    lists: &[Sequence<Gridded>],
    set: CellSet,
) -> Result<Vec<Sequence<Gridded>>, AllocError>
    ensures { IfOk result (λ kept. kept.items ≡ filter (λ patterns. list_all (lies_in (is_among set)) patterns) lists.now) }
{
    let mut kept = Vec::new(alloc);
    for patterns in lists {
        if lie_in(set, patterns.as_slice()) {
            kept.push(patterns.copy(alloc)?)?;
        }
    }
    Ok(kept)
}

/// The factor of a set: what the tiling says of its cells, and all other cells of the grid without points.
fn factor(alloc: Global, tiling: &Tiling, set: CellSet) -> Result<Tiling, AllocError>
    ensures { IfOk result (λ t. t ≡ factor tiling.now set) }
{
    // What a tiling keeps is known once it is read.
    tiling.read();
    let mut obstructions = barred(alloc, tiling, set)?;
    let mut kept = obstructions_in(alloc, tiling, set)?;
    obstructions.append(&mut kept)?;
    let lists = lists_in(alloc, tiling.requirements(), set)?;
    Tiling::in_grid(tiling.width(), tiling.height(), obstructions, lists)
}

/// The factors of a factoring, one for each of its two sets or more, before they are reduced. The refusal is want of
/// memory (docs/RULES.md, "Kinds of rules").
#[tactic(auto, unfolding(rule_kinds::specs::Children::raw_children))]
pub fn factored(alloc: Global, tiling: &Tiling, sets: &[CellSet]) -> Result<Vec<Tiling>, AllocError>
    requires { (nat_le 2 (length sets.now) && is_factoring tiling.now sets.now) ≡ true }
    ensures { IfOk result (λ factors. factors.items ≡ raw_children tiling.now (kind.Factor sets.now)) }
{
    let mut factors = Vec::with_capacity(alloc, sets.len())?;
    for set in sets {
        factors.push(factor(alloc, tiling, *set)?)?;
    }
    Ok(factors)
}

/// The children of a tiling by a factoring, before they are reduced: the factors. Refused is each other kind, and a
/// factoring whose condition fails, as NotApplicable, and nothing else but want of memory, which no other kind takes
/// (docs/RULES.md, "Kinds of rules").
#[tactic(auto, unfolding(rule_kinds::specs::Conditions::applies))]
pub fn build(alloc: Global, tiling: &Tiling, kind: &Kind) -> Result<Vec<Tiling>, RawFault>
    ensures made { IfOk result (λ children. children.items ≡ raw_children tiling.now kind.now) }
    ensures applicable { OnOk result ((is_factor kind.now && applies tiling.now kind.now) ≡ true) }
    ensures refused { IfErr result (λ fault. IsRefused tiling.now kind.now fault) }
    ensures others { is_factor kind.now ≡ false → result ≡ Err RawFault.NotApplicable }
{
    let Kind::Factor(sets) = kind else {
        return Err(RawFault::NotApplicable);
    };
    if !can_factor(tiling, sets.as_slice()) {
        return Err(RawFault::NotApplicable);
    }
    Ok(factored(alloc, tiling, sets.as_slice())?)
}
