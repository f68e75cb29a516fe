// Equality, order and hash of permutations, and their copies.
ghost use Rattle.std.specs.Prelude.{refl};
ghost use Rattle.std.specs.Cmp.{partial_equiv_from_equiv};
ghost use Rattle.std.specs.Ordering.{as_partial_cmp};
ghost use Rattle.perm_core.specs.Orders.{perm_eq, perm_cmp, perm_hash, perm_eq_decides, perm_equiv, perm_total, perm_ties, perm_order, perm_hash_alike};

use crate::perm::Perm;
use sequences::{Copied, Exact};
use std::alloc::{AllocError, Global};
use std::cmp::Ordering;
use std::hash::{Hash, Hasher};

impl PartialEq for Perm {
    ghost eq = { perm_eq };

    ghost laws = { partial_equiv_from_equiv perm_equiv };

    fn eq(&self, other: &Perm) -> bool {
        self.letters() == other.letters()
    }
}

impl Eq for Perm {
    ghost laws = { perm_equiv };
}

impl PartialOrd for Perm {
    ghost partial_cmp = { as_partial_cmp perm_cmp };

    ghost laws = { perm_order };

    fn partial_cmp(&self, other: &Perm) -> Option<Ordering> {
        Some(self.cmp(other))
    }
}

/// By length, then by letters.
impl Ord for Perm {
    ghost cmp = { perm_cmp };

    ghost total = { perm_total };

    ghost matches_partial_cmp = { λ x y. refl };

    ghost matches_eq = { perm_ties };

    fn cmp(&self, other: &Perm) -> Ordering {
        match self.len().cmp(&other.len()) {
            Ordering::Equal => self.letters().cmp(other.letters()),
            unequal => unequal,
        }
    }
}

impl Hash for Perm {
    ghost hash_input = { perm_hash };

    ghost respects_eq = { perm_hash_alike };

    fn hash<H: Hasher>(&self, state: &mut H) {
        self.letters().hash(state);
    }
}

impl Exact for Perm {
    ghost exact = { λ p q. (perm_eq_decides p q).0 };
}

impl Copied for Perm {
    fn copy(&self, _alloc: Global) -> Result<Perm, AllocError> {
        Ok(*self)
    }

    fn copy_all(items: &[Perm], alloc: Global) -> Result<Vec<Perm>, AllocError> {
        Vec::from_slice(alloc, items)
    }
}
