use css_domain::Domain;
use sequences::Sequence;
use std::marker::Model;

/// A class with its rule, the places of the entries that are named for the rule's children, slot by slot,
/// and a rank (docs/RULES.md, "Standing, ranks and picks").
#[derive(Drop)]
pub struct Entry<D: Domain> {
    pub class: D::Class,
    pub rule: D::Rule,
    pub children: Sequence<u32>,
    pub rank: u32,
}

impl<D: Domain> Model for Entry<D> {
    ghost use Rattle.css_domain.specs.Entries.{Entry};

    ghost Value = { Entry D.Class D.Rule };

    ghost view = { λ e. record { class = e.class; rule = e.rule; children = e.children; rank = e.rank } };
}
