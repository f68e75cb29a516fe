ghost use Rattle.std.specs.Prelude.{◌≡◌, ◌<◌, ◌≤◌, ◌+◌, ◌-◌, ◌⊎◌, nat_eq};
ghost use Rattle.coord_maps.specs.LineMaps.{IsCut, new_lines, old_line, first_line, parts_of};
ghost use Rattle.coord_maps.specs.Ways.{ways};

use std::marker::Model;

/// In how many ways some points go, in order, into some parts: a row for each number of points, a place for each
/// number of parts.
const WAYS: [[u16; 9]; 10] = [
    [1, 1, 1, 1, 1, 1, 1, 1, 1],
    [0, 1, 2, 3, 4, 5, 6, 7, 8],
    [0, 1, 3, 6, 10, 15, 21, 28, 36],
    [0, 1, 4, 10, 20, 35, 56, 84, 120],
    [0, 1, 5, 15, 35, 70, 126, 210, 330],
    [0, 1, 6, 21, 56, 126, 252, 462, 792],
    [0, 1, 7, 28, 84, 210, 462, 924, 1716],
    [0, 1, 8, 36, 120, 330, 792, 1716, 3432],
    [0, 1, 9, 45, 165, 495, 1287, 3003, 6435],
    [0, 1, 10, 55, 220, 715, 2002, 5005, 11440],
];

/// A map of columns or rows that cuts line `at` of `lines` lines into `parts`. It sends each new line to the
/// old line that it is a part of: new lines below `at` stay, those from `at` to `at + parts - 1` go to `at`,
/// later ones go down by `parts - 1`. There is at least 1 part, `at` is below `lines` unless there is 1 part,
/// and there are at most 8 new lines.
#[derive(Clone, Copy, Debug)]
pub struct LineMap {
    lines: u8,
    at: u8,
    parts: u8,
}

impl Model for LineMap {
    ghost use Rattle.coord_maps.specs.LineMaps.{Cut, IsCut};

    ghost Value = { Cut };

    ghost view = { λ m. record { lines = m.lines; at = m.at; parts = m.parts } };

    ghost invariant = { λ m. IsCut (record { lines = m.lines; at = m.at; parts = m.parts }) };

    ghost inverse = { λ m. record { lines = m.lines; at = m.at; parts = m.parts } };
}

impl LineMap {
    /// The map that cuts line `at` of `lines` lines into `parts`. One part cuts nothing. Takes no memory.
    pub fn cut(lines: u8, at: u8, parts: u8) -> LineMap
        requires some_parts { 1 ≤ parts }
        requires inside { (at < lines) ⊎ (parts ≡ 1) }
        requires few { lines + parts - 1 ≤ 8 }
        ensures { result ≡ record { lines = lines; at = at; parts = parts } }
    {
        LineMap { lines, at, parts }
    }

    /// What every line map keeps. It computes nothing.
    pub fn kept(&self)
        ensures { IsCut self.now }
    {
        let _ = &self.lines;
    }

    /// The number of lines after the cut.
    pub(crate) fn new_lines(self) -> u8
        ensures { result ≡ new_lines self }
    {
        self.lines + (self.parts - 1)
    }

    /// The old line of a new one.
    pub(crate) fn old_line(self, new: u8) -> u8
        ensures { result ≡ old_line self new }
    {
        if new < self.at {
            new
        } else if new - self.at < self.parts {
            self.at
        } else {
            new - (self.parts - 1)
        }
    }

    /// The first of the new lines that go to an old one.
    pub(crate) fn first_line(self, old: u8) -> u8
        requires { old < self.lines }
        ensures { result ≡ first_line self old }
    {
        if self.at < old {
            old + (self.parts - 1)
        } else {
            old
        }
    }

    /// One past the last of the new lines that go to an old one.
    #[tactic(auto, using(crate::proofs::Runs::run_within))]
    pub(crate) fn end_line(self, old: u8) -> u8
        requires { old < self.lines }
        ensures end { result ≡ first_line self old + parts_of self old }
        ensures within { result ≤ new_lines self }
        ensures few { result ≤ 8 }
    {
        if self.at <= old {
            old + self.parts
        } else {
            old + 1
        }
    }

    /// Whether an old line is the one that is cut.
    pub(crate) fn cuts(self, old: u8) -> bool
        ensures { result ≡ nat_eq old self.at }
    {
        old == self.at
    }

    /// In how many ways so many points of the cut line go, in order, into its parts.
    pub(crate) fn ways(self, points: usize) -> u64
        requires { points ≤ 9 }
        ensures value { result ≡ ways points self.parts }
        ensures few { result < 65536 }
    {
        u64::from(WAYS[points][self.parts as usize])
    }
}
