ghost use Rattle.std.specs.Prelude.{◌≡◌, ◌<◌, IfErr, OnOk, MatchOption, All, length};
ghost use Rattle.tiling_core.specs.Tiles.{IsInGrid, IsKept};
ghost use Rattle.tiling_core.specs.Outside.{IsFirstOutside};
ghost use Rattle.tiling_core.specs.Refused.{IsAccepted, IsRefused};

use gridded::Gridded;
use sequences::Sequence;
use std::alloc::AllocError;
use thiserror::Error;

/// Why there is no tiling.
#[derive(Debug, PartialEq, Eq, Drop, Error)]
pub enum TilingFault {
    /// A side is over 8.
    #[error("a side is over 8")]
    Side,
    /// The pattern at `index` of `list` is the first with a cell outside the grid. List 0 is the obstructions,
    /// list k the k-th requirement list.
    #[error("pattern {index} of list {list} has a cell outside the grid")]
    Outside { list: u32, index: u32 },
    /// There was no memory.
    #[error("out of memory")]
    Memory,
}

impl From<AllocError> for TilingFault {
    ghost use Rattle.std.specs.Prelude.{◌≡◌};
    ghost use Rattle.tiling_core.specs.declared.outside.TilingFault.TheVariants.{Memory};

    ghost from_gives = { λ _ fault. fault ≡ Memory };

    fn from(_error: AllocError) -> TilingFault {
        TilingFault::Memory
    }
}

/// The place of the first pattern with a cell outside a grid.
fn first_outside(patterns: &[Gridded], width: u8, height: u8) -> Option<usize>
    ensures { MatchOption result (IsInGrid width height patterns.now) (λ index. IsFirstOutside width height patterns.now index) }
{
    for (index, pattern) in patterns.iter().enumerate() {
        if !pattern.fits_grid(width, height) {
            return Some(index);
        }
    }
    None
}

/// Whether patterns make a tiling, or the first reason why they don't. Takes no memory.
pub(crate) fn check(
    width: u8,
    height: u8,
    obstructions: &[Gridded],
    lists: &[Sequence<Gridded>],
) -> Result<(), TilingFault>
    requires few_obstructions { IsKept obstructions.now }
    requires few_requirements { IsKept lists.now }
    requires few_each { All (λ patterns. IsKept patterns) lists.now }
    ensures accepted { OnOk result (IsAccepted width height obstructions.now lists.now) }
    ensures refused { IfErr result (λ fault. IsRefused width height obstructions.now lists.now fault) }
{
    if width > 8 || height > 8 {
        return Err(TilingFault::Side);
    }
    if let Some(index) = first_outside(obstructions, width, height) {
        return Err(TilingFault::Outside {
            list: 0,
            index: index as u32,
        });
    }
    for (place, patterns) in lists.iter().enumerate() {
        if let Some(index) = first_outside(patterns.as_slice(), width, height) {
            return Err(TilingFault::Outside {
                list: place as u32 + 1,
                index: index as u32,
            });
        }
    }
    Ok(())
}
