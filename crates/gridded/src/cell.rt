/// A cell of a grid, in column x and row y, both counted from 0; ordered by column, then row.
#[derive(Clone, Copy, Debug, PartialEq, Eq, PartialOrd, Ord, Hash)]
pub struct Cell {
    pub x: u8,
    pub y: u8,
}
