ghost use Rattle.std.specs.Prelude.{◌≡◌};
ghost use Rattle.tiling_core.specs.Tiles.{IsTiling};

use crate::tiling::Tiling;
use gridded::Gridded;
use sequences::Sequence;

impl Tiling {
    /// The obstructions and the requirement lists, both ascending, given up by the tiling. Takes no memory.
    pub fn into_parts(self) -> (Vec<Gridded>, Vec<Sequence<Gridded>>)
        ensures obstructions { result.0.items ≡ self.obstructions }
        ensures requirements { result.1.items ≡ self.requirements }
        ensures kept { IsTiling self }
    {
        let Tiling {
            width: _,
            height: _,
            obstructions,
            requirements,
        } = self;
        (obstructions.into_vec(), requirements.into_vec())
    }
}
