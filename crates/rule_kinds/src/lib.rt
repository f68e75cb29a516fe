//! The kinds of rules on tilings: where each applies, its children, the images of members, and which kinds are tried
//! on a tiling (docs/RULES.md, "Kinds of rules").
#![tactic(auto)]

mod fault;
mod further;
mod kind;
mod pointed;
mod reading;

pub use fault::RawFault;
pub use further::{also, requiring};
pub use kind::{Direction, Kind};
pub use pointed::Pointed;
pub use reading::read_kind;
