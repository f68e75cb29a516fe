ghost use Rattle.std.specs.Prelude.{◌≡◌};
ghost use Rattle.rule_kinds.specs.Kinds.{axis_of};
ghost use Rattle.rule_kinds.specs.Children.{is_beyond};

use gridded::{Axis, Cell};
use rule_kinds::Direction;

/// The lines that a direction compares: rows for North and South, columns for East and West.
pub(crate) fn axis_of(direction: Direction) -> Axis
    ensures { result ≡ axis_of direction }
{
    match direction {
        Direction::North | Direction::South => Axis::Row,
        Direction::East | Direction::West => Axis::Column,
    }
}

/// Whether a cell lies farther in a direction than another one.
pub(crate) fn is_beyond(direction: Direction, from: Cell, cell: Cell) -> bool
    ensures { result ≡ is_beyond direction from cell }
{
    match direction {
        Direction::North => from.y < cell.y,
        Direction::South => cell.y < from.y,
        Direction::East => from.x < cell.x,
        Direction::West => cell.x < from.x,
    }
}
