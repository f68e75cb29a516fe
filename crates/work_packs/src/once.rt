ghost use Rattle.std.specs.Prelude.{◌≡◌, OnOk};
ghost use Rattle.std.specs.List.{list_any};
ghost use Rattle.lists.specs.Added.{with_all_new, with_new};
ghost use Rattle.work_packs.specs.KindLines.{is_same_place};

use std::alloc::AllocError;
use tile_rules::Kind;

/// Whether two kinds are one placement.
fn is_same_place(kind: &Kind, other: &Kind) -> bool
    ensures { result ≡ is_same_place kind.now other.now }
{
    let Kind::Place(pointed, direction) = kind else {
        return false;
    };
    let Kind::Place(others, way) = other else {
        return false;
    };
    *pointed == *others && *direction == *way
}

/// Whether a placement is among kinds.
fn is_among(kinds: &[Kind], kind: &Kind) -> bool
    ensures { result ≡ list_any (is_same_place kind.now) kinds.now }
{
    kinds.iter().any(|other| is_same_place(kind, other))
}

/// Adds a placement that is not there yet.
fn add_one(kinds: &mut Vec<Kind>, kind: Kind) -> Result<(), AllocError>
    ensures { OnOk result (kinds.new.items ≡ with_new is_same_place kinds.old.items kind) }
{
    if !is_among(kinds, &kind) {
        kinds.push(kind)?;
    }
    Ok(())
}

/// Adds those of some placements that are not there yet, each once.
pub(crate) fn add_new(kinds: &mut Vec<Kind>, others: Vec<Kind>) -> Result<(), AllocError>
    ensures { OnOk result (kinds.new.items ≡ with_all_new is_same_place kinds.old.items others.items) }
{
    for kind in others {
        add_one(kinds, kind)?;
    }
    Ok(())
}
