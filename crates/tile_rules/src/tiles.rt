ghost use Rattle.std.specs.Prelude.{◌≡◌};
ghost use Rattle.rule_kinds.specs.Kinds.{shape_of};

use crate::rule::TileRule;
use css_domain::{Domain, Shape};
use rule_kinds::Kind;
use sequences::Copied;
use std::alloc::{AllocError, Global};
use tiling_core::{Tiling, positive};

/// Tilings and the rules on them, as a domain (docs/RULES.md, "Classes, rules and counts").
pub struct Tiles;

/// The shape of the rules of a kind.
fn shape_of(kind: &Kind) -> Shape
    ensures { result ≡ shape_of kind.now }
{
    match kind {
        Kind::Unit => Shape::Atom(0),
        Kind::Point => Shape::Atom(1),
        Kind::Void => Shape::Nothing,
        Kind::Insert(_) => Shape::Union,
        Kind::Place(_, _) => Shape::Union,
        Kind::RowCut(_, _) => Shape::Union,
        Kind::ColumnCut(_, _) => Shape::Union,
        Kind::Factor(_) => Shape::Product,
        Kind::Infer(_) => Shape::Union,
    }
}

impl Domain for Tiles {
    ghost use Rattle.tiling_core.specs.Same.{tiles_eq_decides};
    ghost use Rattle.std.proofs.Common.{refl};
    ghost use Rattle.tile_rules.specs.Meaning.{tile_meaning};
    ghost use Rattle.tile_rules.specs.Laws.Domains.{rules_do_count, none_of_length_0};

    type Class = Tiling;

    type Rule = TileRule;

    ghost meaning = { tile_meaning };

    fn parent(rule: &TileRule) -> &Tiling {
        rule.parent()
    }

    fn arity(rule: &TileRule) -> u32 {
        rule.children().len() as u32
    }

    fn child(rule: &TileRule, slot: u32) -> &Tiling {
        &rule.children()[slot as usize]
    }

    fn shape(rule: &TileRule) -> Shape {
        shape_of(rule.kind())
    }

    fn positive(class: &Tiling) -> bool {
        positive(class)
    }

    fn copy(alloc: Global, class: &Tiling) -> Result<Tiling, AllocError> {
        class.copy(alloc)
    }

    fn copy_rule(alloc: Global, rule: &TileRule) -> Result<TileRule, AllocError> {
        rule.copy(alloc)
    }

    ghost exact = { λ a b. (tiles_eq_decides a b).0 };

    ghost same = { λ a b. refl };

    ghost combined = { rules_do_count };

    ghost none_of_length_0 = { none_of_length_0 };
}
