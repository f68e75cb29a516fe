ghost use Rattle.std.specs.Prelude.{◌≡◌, ◌++◌, ◌∷◌, [], OnOk, decimal};
ghost use Rattle.spec_lines.specs.Lines.{each_after};
ghost use Rattle.spec_lines.specs.Kinds.{direction_text, set_text, pointed_text, kind_word, kind_items, rule_line};

use crate::spell::{Spell, put_bytes, put_each_after, put_number};
use gridded::CellSet;
use std::alloc::AllocError;
use tile_rules::{Direction, Kind, Pointed};

impl Spell for Direction {
    ghost text = { direction_text };

    fn put(&self, out: &mut Vec<u8>) -> Result<(), AllocError> {
        match self {
            Direction::North => put_bytes(out, b"N"),
            Direction::South => put_bytes(out, b"S"),
            Direction::East => put_bytes(out, b"E"),
            Direction::West => put_bytes(out, b"W"),
        }
    }
}

impl Spell for Pointed {
    ghost text = { pointed_text };

    fn put(&self, out: &mut Vec<u8>) -> Result<(), AllocError> {
        self.pattern().put(out)?;
        put_bytes(out, b"^")?;
        put_number(out, u32::from(self.index()))
    }
}

/// Appends the items of a cut: its line's number and its set, each after a blank.
fn put_cut(out: &mut Vec<u8>, number: u8, set: CellSet) -> Result<(), AllocError>
    ensures { OnOk result (out.new.items ≡ out.old.items ++ each_after 32 (decimal number ∷ set_text set ∷ [])) }
{
    put_bytes(out, b" ")?;
    put_number(out, u32::from(number))?;
    put_bytes(out, b" ")?;
    set.put(out)
}

/// Appends the word and the items of a kind, each after a blank.
fn put_kind(out: &mut Vec<u8>, kind: &Kind) -> Result<(), AllocError>
    ensures { OnOk result (out.new.items ≡ out.old.items ++ each_after 32 (kind_word kind.now ∷ kind_items kind.now)) }
{
    match kind {
        Kind::Unit => put_bytes(out, b" unit"),
        Kind::Point => put_bytes(out, b" point"),
        Kind::Void => put_bytes(out, b" void"),
        Kind::Insert(pattern) => {
            put_bytes(out, b" insert ")?;
            pattern.put(out)
        }
        Kind::Place(pointed, direction) => {
            put_bytes(out, b" place ")?;
            direction.put(out)?;
            put_each_after(out, b' ', pointed.as_slice())
        }
        Kind::RowCut(row, set) => {
            put_bytes(out, b" rowcut")?;
            put_cut(out, *row, *set)
        }
        Kind::ColumnCut(column, set) => {
            put_bytes(out, b" colcut")?;
            put_cut(out, *column, *set)
        }
        Kind::Factor(sets) => {
            put_bytes(out, b" factor")?;
            put_each_after(out, b' ', sets.as_slice())
        }
        Kind::Infer(patterns) => {
            put_bytes(out, b" infer")?;
            put_each_after(out, b' ', patterns.as_slice())
        }
    }
}

/// Appends the line of a kind.
pub(crate) fn put_rule_line(out: &mut Vec<u8>, kind: &Kind) -> Result<(), AllocError>
    ensures { OnOk result (out.new.items ≡ out.old.items ++ rule_line kind.now) }
{
    put_bytes(out, b"rule")?;
    put_kind(out, kind)?;
    put_bytes(out, b"\n")
}
