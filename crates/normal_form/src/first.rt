// The first step that applies.
ghost use Rattle.std.specs.Prelude.{◌≡◌, ◌∷◌, [], find, map, true};
ghost use Rattle.std.specs.List.{range_with_len};
ghost use Rattle.gridded.specs.CellSets.{cells_that};
ghost use Rattle.gridded.specs.Grids.{cells_in};
ghost use Rattle.gridded.specs.Small.{point_at};
ghost use Rattle.tiling_core.specs.Patterns.{requires_list};
ghost use Rattle.tiling_core.specs.Tiles.{IsTiling};
ghost use Rattle.steps.specs.Steps.{step_applies};
ghost use Rattle.steps.specs.Traces.{first_step};
ghost use Rattle.steps.specs.declared.Step.TheVariants.{Min, Clean, Column, Row};
ghost use Rattle.std.specs.Option.{option_or};
ghost use Rattle.normal_form.specs.Known.{IsKnown};
ghost use Rattle.normal_form.specs.Lines.{AreUsed};

use crate::known::Known;
use crate::lines::{line_applies, used_cells};
use crate::required::required_cells;
use gridded::{Cell, CellSet};
use steps::{Step, applies};
use tiling_core::Tiling;

/// Whether a step applies, a cell being looked for among those whose point alone is required.
fn cell_applies(step: Step, tiling: &Tiling, required: CellSet) -> bool
    requires { required ≡ cells_that (λ c. requires_list tiling.now (point_at c ∷ [])) }
    ensures { result ≡ step_applies step tiling.now }
{
    if let Step::Clean(cell) = step {
        if cell.x < 8 && cell.y < 8 && !required.has(cell) {
            return false;
        }
    }
    applies(step, tiling)
}

/// The first cell of a column that can be cleaned, as a step.
fn first_in_column(tiling: &Tiling, required: CellSet, column: u8) -> Option<Step>
    requires { required ≡ cells_that (λ c. requires_list tiling.now (point_at c ∷ [])) }
    ensures { result ≡ find (λ s. step_applies s tiling.now) (map (λ y. Clean (record { x = column; y = y })) (range_with_len 0 tiling.now.height)) }
{
    (0..tiling.height())
        .map(|row| Step::Clean(Cell { x: column, y: row }))
        .find(|step| cell_applies(*step, tiling, required))
}

/// The first cell that can be cleaned, as a step.
fn first_cell(tiling: &Tiling) -> Option<Step>
    ensures { result ≡ find (λ s. step_applies s tiling.now) (map (λ c. Clean c) (cells_in tiling.now.width tiling.now.height)) }
{
    let required = required_cells(tiling);
    for column in 0..tiling.width() {
        if let Some(step) = first_in_column(tiling, required, column) {
            return Some(step);
        }
    }
    None
}

/// The first column that can go, as a step.
fn first_column(tiling: &Tiling, used: CellSet) -> Option<Step>
    requires { AreUsed used tiling.now }
    ensures { result ≡ find (λ s. step_applies s tiling.now) (map (λ x. Column x) (range_with_len 0 tiling.now.width)) }
{
    (0..tiling.width())
        .map(|column| Step::Column(column))
        .find(|step| line_applies(*step, tiling, used))
}

/// The first row that can go, as a step.
fn first_row(tiling: &Tiling, used: CellSet) -> Option<Step>
    requires { AreUsed used tiling.now }
    ensures { result ≡ find (λ s. step_applies s tiling.now) (map (λ y. Row y) (range_with_len 0 tiling.now.height)) }
{
    (0..tiling.height())
        .map(|row| Step::Row(row))
        .find(|step| line_applies(*step, tiling, used))
}

/// The first column that can go, else the first row, as a step.
fn first_line(tiling: &Tiling) -> Option<Step>
    ensures { result ≡ option_or (find (λ s. step_applies s tiling.now) (map (λ x. Column x) (range_with_len 0 tiling.now.width))) (find (λ s. step_applies s tiling.now) (map (λ y. Row y) (range_with_len 0 tiling.now.height))) }
{
    let used = used_cells(tiling);
    if let Some(step) = first_column(tiling, used) {
        return Some(step);
    }
    first_row(tiling, used)
}

/// Whether Min applies, looked at only where it isn't known.
fn can_lose_obstructions(tiling: &Tiling, known: Known) -> bool
    requires { IsKnown known tiling.now }
    ensures { result ≡ step_applies Min tiling.now }
{
    match known {
        Known::Nothing => applies(Step::Min, tiling),
        Known::Minimal | Known::LinesAlone => false,
    }
}

/// The first step that applies, of all kinds.
#[tactic(auto, using(crate::proofs::Firsts::by_kind))]
fn first_of_all(tiling: &Tiling, known: Known) -> Option<Step>
    requires { IsKnown known tiling.now }
    ensures { result ≡ first_step tiling.now }
{
    if applies(Step::Void, tiling) {
        return Some(Step::Void);
    }
    if can_lose_obstructions(tiling, known) {
        return Some(Step::Min);
    }
    if let Some(step) = first_cell(tiling) {
        return Some(step);
    }
    if applies(Step::Lists, tiling) {
        return Some(Step::Lists);
    }
    first_line(tiling)
}

/// The first step that applies, in the order Void, Min, Clean by cells, Lists, columns from 0 on, rows from 0
/// on. What is known not to apply isn't tested. Takes no memory.
#[tactic(auto, using(crate::proofs::Knowing::only_lines))]
pub(crate) fn first_step(tiling: &Tiling, known: Known) -> Option<Step>
    requires { IsKnown known tiling.now }
    ensures value { result ≡ first_step tiling.now }
    ensures kept { IsTiling tiling.now }
{
    // What a tiling keeps is known once it is read.
    let _width = tiling.width();
    match known {
        Known::LinesAlone => first_line(tiling),
        Known::Nothing | Known::Minimal => first_of_all(tiling, known),
    }
}
