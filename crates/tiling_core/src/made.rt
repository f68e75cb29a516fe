ghost use Rattle.std.specs.Prelude.{◌≡◌, ◌≤◌, IfOk, IfErr, OnOk, All, map};
ghost use Rattle.gridded.specs.Orders.{gridded_cmp};
ghost use Rattle.sequences.specs.Ascending.{in_order};
ghost use Rattle.tiling_core.specs.Tiles.{AreGridded, IsInGrid, IsKept, tiling_of};
ghost use Rattle.tiling_core.specs.Refused.{IsAccepted, IsRefused};

use crate::outside::{TilingFault, check};
use crate::tiling::Tiling;
use gridded::Gridded;
use sequences::{Sequence, ascending};
use std::alloc::{AllocError, Global};

/// The most items of a list that a tiling keeps.
const MOST_ITEMS: usize = 268_435_455;

/// A list in ascending order without repeats; one that is too long counts as memory that isn't there.
fn kept<T: sequences::Exact>(items: Vec<T>) -> Result<Sequence<T>, AllocError>
    ensures value { IfOk result (λ sequence. sequence ≡ in_order T.cmp items.items) }
    ensures few { IfOk result (λ sequence. IsKept sequence) }
{
    let sequence = ascending(items)?;
    if sequence.len() > MOST_ITEMS {
        return Err(AllocError);
    }
    Ok(sequence)
}

/// Each list in ascending order without repeats.
fn each_kept(lists: Vec<Sequence<Gridded>>) -> Result<Vec<Sequence<Gridded>>, AllocError>
    ensures value { IfOk result (λ ordered. ordered.items ≡ map (λ patterns. in_order gridded_cmp patterns) lists.items) }
    ensures few { IfOk result (λ ordered. All (λ patterns. IsKept patterns) ordered.items) }
{
    let alloc = *lists.allocator();
    let mut ordered = Vec::with_capacity(alloc, lists.len())?;
    for patterns in lists {
        ordered.push(kept(patterns.into_vec())?)?;
    }
    Ok(ordered)
}

/// Tells what every gridded permutation keeps, of each pattern, to a caller that needs the facts alone. Takes no
/// memory.
pub fn read_patterns(patterns: &[Gridded])
    ensures { AreGridded patterns.now }
{
    for pattern in patterns {
        let _ = pattern.len();
    }
}

/// Reads the patterns of each list. Takes no memory.
fn read_lists(lists: &[Sequence<Gridded>])
    ensures { All (λ patterns. AreGridded patterns) lists.now }
{
    for patterns in lists {
        read_patterns(patterns.as_slice());
    }
}

impl Tiling {
    /// The tiling of patterns that the caller knows to lie in its grid, whose sides are at most 8. They are put
    /// in order and repeats go, in the obstructions, in each requirement list and among the lists. A list of
    /// 268,435,456 items or more counts as memory that isn't there.
    pub fn in_grid(
        width: u8,
        height: u8,
        obstructions: Vec<Gridded>,
        requirements: Vec<Sequence<Gridded>>,
    ) -> Result<Tiling, AllocError>
        requires narrow { width ≤ 8 }
        requires low { height ≤ 8 }
        requires obstructions_in { IsInGrid width height obstructions.items }
        requires requirements_in { All (λ patterns. IsInGrid width height patterns) requirements.items }
        ensures { IfOk result (λ t. t ≡ tiling_of width height obstructions.items requirements.items) }
    {
        read_patterns(&obstructions);
        read_lists(&requirements);
        let obstructions = kept(obstructions)?;
        let requirements = kept(each_kept(requirements)?)?;
        Ok(Tiling {
            width,
            height,
            obstructions,
            requirements,
        })
    }

    /// The tiling of these patterns, which are put in order, each once, as are the lists. Refused are a side
    /// over 8, then the first pattern as given with a cell outside the grid, by its place in its list; list 0 is
    /// the obstructions, list k the k-th requirement list. Each list has fewer than 268,435,456 items.
    pub fn of(
        _alloc: Global,
        width: u8,
        height: u8,
        obstructions: Vec<Gridded>,
        requirements: Vec<Sequence<Gridded>>,
    ) -> Result<Tiling, TilingFault>
        requires few_obstructions { IsKept obstructions.items }
        requires few_requirements { IsKept requirements.items }
        requires few_each { All (λ patterns. IsKept patterns) requirements.items }
        ensures made { IfOk result (λ t. t ≡ tiling_of width height obstructions.items requirements.items) }
        ensures accepted { OnOk result (IsAccepted width height obstructions.items requirements.items) }
        ensures refused { IfErr result (λ fault. IsRefused width height obstructions.items requirements.items fault) }
    {
        check(width, height, &obstructions, &requirements)?;
        Ok(Tiling::in_grid(width, height, obstructions, requirements)?)
    }
}
