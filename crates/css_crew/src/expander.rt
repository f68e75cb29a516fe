ghost use Rattle.std.specs.Prelude.{◌≡◌, ℕ, IfOk};
ghost use Rattle.css_crew.specs.Ways.{IsExpansion};

use css_domain::{Domain, Filing};
use std::alloc::{AllocError, Global};

/// What finds the complete filing of a class for its rulebook, a number by which filings are complete.
pub trait Expander<D: Domain> {
    ghost rulebook_of: { Self → ℕ };

    /// The number of the rulebook. Takes no memory.
    fn rulebook(&self) -> u32
        ensures { result ≡ rulebook_of self.now };

    /// The complete filing of the class: each rule holds and makes the class, and it has at most 2,048 words.
    /// The refusal is want of memory.
    fn expand(&self, alloc: Global, class: &D::Class) -> Result<Filing<D>, AllocError>
        ensures { IfOk result (λ filing. IsExpansion D.meaning (rulebook_of self.now) class.now filing) };
}
