ghost use Rattle.std.specs.Prelude.{◌≡◌, map, nat_eq};
ghost use Rattle.std.specs.List.{list_all, list_any};
ghost use Rattle.gridded.specs.Axes.{line_of};
ghost use Rattle.gridded.specs.Orders.{cell_eq};
ghost use Rattle.rule_kinds.specs.Kinds.{pointed_cell};
ghost use Rattle.rule_kinds.specs.Conditions.{all_distinct, on_one_line};

use crate::map_around::pointed_cell;
use gridded::{Axis, Cell};
use rule_kinds::Pointed;

/// Whether one of the patterns points into a cell.
fn some_points_into(pointed: &[Pointed], cell: Cell) -> bool
    ensures { result ≡ list_any (λ q. cell_eq cell (pointed_cell q)) pointed.now }
{
    pointed.iter().any(|other| cell == pointed_cell(other))
}

/// Whether the pointed cells are distinct.
pub(crate) fn are_distinct(pointed: &[Pointed]) -> bool
    ensures { result ≡ all_distinct (map pointed_cell pointed.now) }
{
    for place in 0..pointed.len() {
        if some_points_into(&pointed[place + 1..], pointed_cell(&pointed[place])) {
            return false;
        }
    }
    true
}

/// Whether each of the patterns points into a line of an axis.
fn point_into_line(pointed: &[Pointed], axis: Axis, line: u8) -> bool
    ensures { result ≡ list_all (λ q. nat_eq line (line_of axis (pointed_cell q))) pointed.now }
{
    pointed
        .iter()
        .all(|each| line == pointed_cell(each).line(axis))
}

/// Whether the pointed cells lie on one line of an axis.
pub(crate) fn share_line(pointed: &[Pointed], axis: Axis) -> bool
    ensures { result ≡ on_one_line axis (map pointed_cell pointed.now) }
{
    match pointed.split_first() {
        Some((first, rest)) => point_into_line(rest, axis, pointed_cell(first).line(axis)),
        None => true,
    }
}
