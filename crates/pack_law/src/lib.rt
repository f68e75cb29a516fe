//! What the rules that some strategies try can't specify: where a ledger filed for them is exhausted, its root
//! has no specification by such rules (docs/RULES.md, "What a pack can't specify").
#![tactic(auto)]

mod law;
#[cfg(test)]
mod tests;

pub use law::exhausted_is_beyond_the_pack;
