ghost use Rattle.std.specs.Prelude.{◌≡◌, ◌∷◌, [], length, true, refl};
ghost use Rattle.std.specs.List.{list_all};
ghost use Rattle.std.specs.Cmp.{partial_equiv_from_equiv};
ghost use Rattle.std.specs.Ordering.{as_partial_cmp};
ghost use Rattle.gridded.specs.Grids.{may_follow, is_consistent, points};
ghost use Rattle.gridded.specs.Orders.{gridded_eq, gridded_cmp, letters_of, cells_of};
ghost use Rattle.gridded.specs.OrderLaws.{gridded_equiv, gridded_total, gridded_ties, gridded_order};
ghost use Rattle.spec_lines.specs.Forms.{is_pattern};
ghost use Rattle.spec_lines.specs.Items.{read_all};
ghost use Rattle.spec_lines.specs.Readings.{cell_at, gridded_at, pattern_at};
ghost use Rattle.spec_lines.specs.Ranges.{is_short, is_small_pattern};
ghost use Rattle.line_readers.specs.Few.{IsFew};
ghost use Rattle.line_readers.specs.Narrow.{IsNarrowed};

use crate::cells::{are_small, read_cell};
use crate::cuts::Items;
use crate::narrow::Wide;
use crate::spelt::Spelt;
use crate::ten_cells::TenCells;
use crate::words::Word;
use arrayvec::ArrayVec;
use gridded::{Cell, Gridded};
use std::alloc::{AllocError, Global};
use std::cmp::Ordering;
use std::marker::Model;

/// A gridded permutation of at most ten points. Contracts see the list of its points from left to right.
#[derive(Drop)]
pub(crate) struct Pattern {
    letters: ArrayVec<u8, 10>,
    cells: TenCells,
}

impl Model for Pattern {
    ghost use Rattle.std.specs.Prelude.{List};
    ghost use Rattle.gridded.specs.Grids.{Point, points};
    ghost use Rattle.line_readers.specs.Wide.{IsWide};

    ghost Value = { List Point };

    ghost view = { λ p. points p.letters.items p.cells };

    ghost invariant = { λ p. IsWide p.letters.items p.cells };
}

/// The cells that the items spell, where they are at most ten; None where one spells none, or there are more.
fn read_cells(mut items: Items<'_>) -> Option<TenCells>
    ensures { IsFew result (read_all cell_at items.entry) }
{
    let mut cells = TenCells::none();
    while let Some(item) = items.next() {
        let cell = read_cell(item)?;
        if cells.as_slice().len() == 10 {
            return None;
        }
        cells.push(cell);
    }
    Some(cells)
}

/// Whether each further point may stand right of a point.
#[tactic(auto, using(crate::proofs::Wide::points_behind))]
fn all_may_follow(letter: u8, cell: Cell, letters: &[u8], cells: &[Cell]) -> bool
    requires { length letters.now ≡ length cells.now }
    ensures { result ≡ list_all (λ q. may_follow (record { letter = letter; cell = cell }) q) (points letters.now cells.now) }
{
    for place in 0..letters.len() {
        let right = letters[place];
        let other = cells[place];
        let rises = letter < right && other.y < cell.y;
        let falls = right < letter && cell.y < other.y;
        if other.x < cell.x || rises || falls {
            return false;
        }
    }
    true
}

/// Whether points with these letters and cells fit together.
#[tactic(auto, using(crate::proofs::Wide::points_behind))]
fn fit_together(letters: &[u8], cells: &[Cell]) -> bool
    requires { length letters.now ≡ length cells.now }
    ensures { result ≡ is_consistent (points letters.now cells.now) }
{
    for place in 0..letters.len() {
        let (rest, others) = (&letters[place + 1..], &cells[place + 1..]);
        if !all_may_follow(letters[place], cells[place], rest, others) {
            return false;
        }
    }
    true
}

/// The pattern of a word and cells.
#[tactic(auto, using(crate::proofs::Wide::all_kept))]
fn read_gridded(word: &[u8], cells: &[u8]) -> Option<Pattern>
    ensures { result ≡ gridded_at (word.now ∷ cells.now ∷ []) }
{
    let word = Word::of(word)?;
    let cells = read_cells(Items::of(cells, b'.'))?;
    if word.letters().len() != cells.as_slice().len() {
        return None;
    }
    if !fit_together(word.letters(), cells.as_slice()) {
        return None;
    }
    Some(Pattern {
        letters: word.into_letters(),
        cells,
    })
}

impl Pattern {
    /// The pattern without points.
    fn empty() -> Pattern
        ensures { result ≡ [] }
    {
        Pattern {
            letters: ArrayVec::new(),
            cells: TenCells::none(),
        }
    }

    /// The pattern that the text spells.
    pub(crate) fn of(text: &[u8]) -> Option<Pattern>
        ensures { result ≡ pattern_at text.now }
    {
        if text == b"e".as_slice() {
            return Some(Pattern::empty());
        }
        let mut items = Items::of(text, b':');
        let word = items.next()?;
        let cells = items.next()?;
        if items.next().is_some() {
            return None;
        }
        read_gridded(word, cells)
    }

    /// The gridded permutation, where there are at most nine points.
    #[tactic(auto, using(crate::proofs::Wide::fit_from_wide, crate::proofs::Wide::as_many_points))]
    pub(crate) fn short(&self) -> Option<Gridded>
        ensures { IsNarrowed is_short (λ g. g) self.now result }
    {
        let letters = self.letters.as_slice();
        let cells = self.cells.as_slice();
        if letters.len() > 9 {
            return None;
        }
        Some(Gridded::from_consistent(letters, cells))
    }

    /// The gridded permutation, where there are at most nine points and the digits of its cells are at most 7.
    #[tactic(auto, using(crate::proofs::Wide::not_both))]
    pub(crate) fn small(&self) -> Option<Gridded>
        ensures { IsNarrowed is_small_pattern (λ g. g) self.now result }
    {
        if !are_small(self.cells()) {
            return None;
        }
        self.short()
    }

    /// The letters from left to right.
    #[tactic(auto, using(crate::proofs::Wide::letters_back, crate::proofs::Wide::cells_back))]
    pub(crate) fn letters(&self) -> &[u8]
        ensures value { result.now ≡ letters_of self.now }
        ensures pattern { is_pattern self.now ≡ true }
    {
        self.letters.as_slice()
    }

    /// The cells from left to right.
    #[tactic(auto, using(crate::proofs::Wide::letters_back, crate::proofs::Wide::cells_back))]
    pub(crate) fn cells(&self) -> &[Cell]
        ensures value { result.now ≡ cells_of self.now }
        ensures pattern { is_pattern self.now ≡ true }
    {
        self.cells.as_slice()
    }
}

impl PartialEq for Pattern {
    ghost eq = { gridded_eq };

    ghost laws = { partial_equiv_from_equiv gridded_equiv };

    fn eq(&self, other: &Pattern) -> bool {
        self.letters() == other.letters() && self.cells() == other.cells()
    }
}

impl Eq for Pattern {
    ghost laws = { gridded_equiv };
}

impl PartialOrd for Pattern {
    ghost partial_cmp = { as_partial_cmp gridded_cmp };

    ghost laws = { gridded_order };

    fn partial_cmp(&self, other: &Pattern) -> Option<Ordering> {
        Some(self.cmp(other))
    }
}

/// By length, then letters, then cells.
impl Ord for Pattern {
    ghost cmp = { gridded_cmp };

    ghost total = { gridded_total };

    ghost matches_partial_cmp = { λ x y. refl };

    ghost matches_eq = { gridded_ties };

    fn cmp(&self, other: &Pattern) -> Ordering {
        match self.letters().len().cmp(&other.letters().len()) {
            Ordering::Equal => {}
            unequal => return unequal,
        }
        match self.letters().cmp(other.letters()) {
            Ordering::Equal => self.cells().cmp(other.cells()),
            unequal => unequal,
        }
    }
}

impl Spelt for Pattern {
    ghost spelt = { pattern_at };

    fn read(_alloc: Global, text: &[u8]) -> Result<Option<Pattern>, AllocError> {
        Ok(Pattern::of(text))
    }
}

impl Wide for Pattern {
    type Narrow = Gridded;

    ghost fits = { is_short };

    ghost wide = { λ g. g };

    fn narrow(&self, _alloc: Global) -> Result<Option<Gridded>, AllocError> {
        Ok(self.short())
    }
}
