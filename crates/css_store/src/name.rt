use std::marker::Brand;

/// Names a log, a budget and the number of a rulebook, which only contracts see. What passes the lock of a store
/// is of its name, so whoever takes the lock knows these three. A function that is generic over a name is
/// called with `Brand`, and the proof of that call picks them (docs/RULES.md, "The store").
pub trait StoreName {
    ghost use Rattle.std.specs.Prelude.{ℕ};
    ghost use Rattle.atomic_table.specs.Seated.{TableId};

    ghost log: { TableId };

    ghost budget: { ℕ };

    ghost rulebook: { ℕ };
}

impl StoreName for Brand {
    ghost use Rattle.css_store.specs.Desks.{no_log};

    ghost log = { no_log };

    ghost budget = { 0 };

    ghost rulebook = { 0 };
}
