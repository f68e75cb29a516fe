use gridded::Cell;

/// A step of a reduction (docs/RULES.md, "Reduction steps"). A cell, column or row that isn't in the grid
/// is a step that doesn't apply.
#[derive(Clone, Copy, Debug, PartialEq, Eq)]
pub enum Step {
    /// Obstructions that hold another obstruction go.
    Min,
    /// The point in an isolated point cell goes from each pattern that has exactly one point there.
    Clean(Cell),
    /// Requirement lists lose members that say nothing, and lists that others imply go.
    Lists,
    /// A column without points goes.
    Column(u8),
    /// A row without points goes.
    Row(u8),
    /// A tiling that plainly has no member becomes the void tiling.
    Void,
}
