//! Where bytes come from and where they go: sources and sinks, with their faults counted. Their
//! rules are in docs/RULES.md, "Sources and sinks".
#![tactic(auto)]

mod adapters;
mod faults;
mod memory;
mod sinks;
mod sources;
mod steady;

pub use adapters::{StdSink, StdSource};
pub use faults::{Failed, ReadFault};
pub use memory::{MemSink, MemSource};
pub use sinks::{Sink, write_all};
pub use sources::{Source, read_all};
pub use steady::{SteadySink, SteadySource};

#[cfg(test)]
mod adapters_tests;
#[cfg(test)]
mod reading_tests;
#[cfg(test)]
mod tests;
