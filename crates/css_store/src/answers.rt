use css_domain::{Domain, Filing};
use css_ledger::Pack;
use css_log::Note;

/// What a desk answers to a claim: a class to file, with a copy of it; that the budget is spent; that all
/// classes are done; that there is nothing to do now; that the reader has asked to stop; or want of memory for
/// the copy.
pub enum DeskClaim<D: Domain> {
    Work(Pack, D::Class),
    Spent,
    Finished,
    Idle,
    Stopped,
    Memory,
}

/// What a store answers to a claim, which has waited while there was nothing to do.
pub enum StoreClaim<D: Domain> {
    Work(Pack, D::Class),
    Spent,
    Finished,
    Stopped,
    Memory,
}

/// A pack and a filing that are handed back: the pack's class isn't out here, or some rule doesn't make it; or
/// for want of memory.
pub enum Unfiled<D: Domain> {
    NotOut(Pack, Filing<D>),
    Memory(Pack, Filing<D>),
}

/// More is published than was seen, with a note of how much; or it isn't, and no worker is left.
#[derive(Drop)]
pub enum Growth {
    Grown(Note),
    Ended,
}
