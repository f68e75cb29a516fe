ghost use Rattle.std.specs.Prelude.{◌≡◌, ◌<◌, ◌≤◌, ◌+◌, ◌-◌, ◌&&◌, true, false, length, drop, slice_index_or};
ghost use Rattle.std.specs.List.{list_all, list_any};
ghost use Rattle.gridded.specs.Grids.{holds};
ghost use Rattle.gridded.specs.Orders.{cells_of};
ghost use Rattle.gridded.specs.Places.{fits_grid};
ghost use Rattle.tiling_core.specs.Tiles.{is_member};
ghost use Rattle.emptiness.specs.ByCell.{IsByCell};
ghost use Rattle.emptiness.specs.Glueing.{stands_in, weight_of, reaches, glues, glues_at, joins, onward, corner};

use crate::by_cell::{At, holds_one, holds_one_at};
use crate::insertion::{fits_at, inserted};
use gridded::{Cell, Gridded, holds};
use tiling_core::Tiling;

/// Whether the point at a place stands in a cell.
#[tactic(auto, using(crate::proofs::Steps::standing))]
fn stands_in(g: &Gridded, place: usize, cell: Cell) -> bool
    ensures { result ≡ stands_in place cell g.now }
{
    place < g.cells().len() && g.cells()[place] == cell
}

/// Whether a pattern of each list is held.
fn meets_each(tiling: &Tiling, g: &Gridded) -> bool
    ensures { result ≡ list_all (λ patterns. list_any (λ p. holds g.now p) patterns) tiling.now.requirements }
{
    tiling
        .requirements()
        .iter()
        .all(|patterns| holds_one(g, patterns.as_slice()))
}

/// Whether it is a member but for the obstructions.
fn belongs(tiling: &Tiling, g: &Gridded) -> bool
    ensures { result ≡ (fits_grid tiling.now.width tiling.now.height g.now && list_all (λ patterns. list_any (λ p. holds g.now p) patterns) tiling.now.requirements) }
{
    g.fits_grid(tiling.width(), tiling.height()) && meets_each(tiling, g)
}

/// Whether it is a member, where it holds no obstruction; it is then told.
#[tactic(auto, using(crate::proofs::Untouched::avoiding))]
fn is_reached(tiling: &Tiling, g: &Gridded, member: &mut Gridded) -> bool
    requires { list_any (λ p. holds g.now p) tiling.now.obstructions ≡ false }
    ensures value { result ≡ is_member tiling.now g.now }
    ensures told { result ≡ true → is_member tiling.now member.new ≡ true }
{
    if !belongs(tiling, g) {
        return false;
    }
    *member = *g;
    true
}

/// Whether a member is reached from a gridded permutation, which holds no obstruction, by patterns of the
/// lists from a number on; it is then told.
#[cycle(glueing)]
pub(crate) fn reaches(
    tiling: &Tiling,
    index: &[At],
    g: &Gridded,
    list: usize,
    member: &mut Gridded,
) -> bool
    requires indexed { IsByCell tiling.now.obstructions index.now }
    requires avoids { list_any (λ p. holds g.now p) tiling.now.obstructions ≡ false }
    requires within { list ≤ length tiling.now.requirements }
    requires room { length g.now + weight_of (drop list tiling.now.requirements) ≤ 9 }
    ensures value { result ≡ reaches tiling.now (drop list tiling.now.requirements) g.now }
    ensures told { result ≡ true → is_member tiling.now member.new ≡ true }
{
    if list == tiling.requirements().len() {
        return is_reached(tiling, g, member);
    }
    let patterns = tiling.requirements()[list].as_slice();
    if holds_one(g, patterns) {
        return reaches(tiling, index, g, list + 1, member);
    }
    for pattern in patterns {
        if glues(tiling, index, g, pattern, list + 1, 0, 0, member) {
            return true;
        }
    }
    false
}

/// Whether a member is reached when the pattern's points from a number on are put into g, at a place or later,
/// or fall on points of g.
#[cycle(glueing)]
fn glues(
    tiling: &Tiling,
    index: &[At],
    g: &Gridded,
    pattern: &Gridded,
    list: usize,
    taken: usize,
    from: usize,
    member: &mut Gridded,
) -> bool
    requires indexed { IsByCell tiling.now.obstructions index.now }
    requires avoids { list_any (λ p. holds g.now p) tiling.now.obstructions ≡ false }
    requires within { list ≤ length tiling.now.requirements }
    requires of_pattern { taken ≤ length pattern.now }
    requires of_points { from ≤ length g.now }
    requires room { length g.now + (length pattern.now - taken) + weight_of (drop list tiling.now.requirements) ≤ 9 }
    ensures value { result ≡ glues tiling.now.obstructions pattern.now (λ h. reaches tiling.now (drop list tiling.now.requirements) h) (drop taken (cells_of pattern.now)) from g.now }
    ensures told { result ≡ true → is_member tiling.now member.new ≡ true }
{
    if taken == pattern.cells().len() {
        return holds(g, pattern) && reaches(tiling, index, g, list, member);
    }
    for place in from..g.cells().len() + 1 {
        if glues_at(tiling, index, g, pattern, list, taken, place, member) {
            return true;
        }
    }
    false
}

/// The same where the pattern's next point falls on the point at a place, or is put in there.
#[cycle(glueing)]
fn glues_at(
    tiling: &Tiling,
    index: &[At],
    g: &Gridded,
    pattern: &Gridded,
    list: usize,
    taken: usize,
    place: usize,
    member: &mut Gridded,
) -> bool
    requires indexed { IsByCell tiling.now.obstructions index.now }
    requires avoids { list_any (λ p. holds g.now p) tiling.now.obstructions ≡ false }
    requires within { list ≤ length tiling.now.requirements }
    requires of_pattern { taken < length pattern.now }
    requires of_points { place ≤ length g.now }
    requires room { length g.now + (length pattern.now - taken) + weight_of (drop list tiling.now.requirements) ≤ 9 }
    ensures value { result ≡ glues_at tiling.now.obstructions (onward tiling.now pattern.now list taken) (slice_index_or (cells_of pattern.now) taken corner) g.now place }
    ensures told { result ≡ true → is_member tiling.now member.new ≡ true }
{
    if stands_in(g, place, pattern.cells()[taken]) {
        if glues(
            tiling,
            index,
            g,
            pattern,
            list,
            taken + 1,
            place + 1,
            member,
        ) {
            return true;
        }
    }
    for letter in 0..g.cells().len() + 1 {
        if joins(
            tiling, index, g, pattern, list, taken, place, letter, member,
        ) {
            return true;
        }
    }
    false
}

/// The same where the pattern's next point is put in at a place with a letter. The longer permutation is
/// tested for the obstructions with a point in the new cell alone.
#[cycle(glueing)]
fn joins(
    tiling: &Tiling,
    index: &[At],
    g: &Gridded,
    pattern: &Gridded,
    list: usize,
    taken: usize,
    place: usize,
    letter: usize,
    member: &mut Gridded,
) -> bool
    requires indexed { IsByCell tiling.now.obstructions index.now }
    requires avoids { list_any (λ p. holds g.now p) tiling.now.obstructions ≡ false }
    requires within { list ≤ length tiling.now.requirements }
    requires of_pattern { taken < length pattern.now }
    requires of_points { place ≤ length g.now }
    requires of_letters { letter ≤ length g.now }
    requires room { length g.now + (length pattern.now - taken) + weight_of (drop list tiling.now.requirements) ≤ 9 }
    ensures value { result ≡ joins tiling.now.obstructions (onward tiling.now pattern.now list taken) (slice_index_or (cells_of pattern.now) taken corner) g.now place letter }
    ensures told { result ≡ true → is_member tiling.now member.new ≡ true }
{
    let cell = pattern.cells()[taken];
    if !fits_at(g, place, letter as u8, cell) {
        return false;
    }
    let longer = inserted(g, place, letter as u8, cell);
    if holds_one_at(&longer, cell, tiling.obstructions(), index) {
        return false;
    }
    glues(
        tiling,
        index,
        &longer,
        pattern,
        list,
        taken + 1,
        place + 1,
        member,
    )
}
