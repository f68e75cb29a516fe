ghost use Rattle.std.specs.Prelude.{◌≡◌, [], length, take, IfOk, IsNone};
ghost use Rattle.css_domain.specs.Ledgers.{records};
ghost use Rattle.css_crew.specs.Crews.{GoesOn};

use crate::expander::Expander;
use crate::reason::Reason;
use css_domain::Domain;
use css_ledger::{Claimed, Ledger};
use std::alloc::{AllocError, Global};

/// Files the least fresh class, where none is out. Answers why none is filed, where none is; then the ledger is
/// as before. The refusal is want of memory.
pub(crate) fn file_fresh<D: Domain, E: Expander<D>>(
    alloc: Global,
    ledger: &mut Ledger<D>,
    expander: &E,
) -> Result<Option<Reason>, AllocError>
    requires out { ledger.old.out ≡ [] }
    requires rulebook { ledger.old.rulebook ≡ E.rulebook_of expander.now }
    ensures goes { IfOk result (λ end. GoesOn D.meaning ledger.old ledger.new end) }
    ensures records { IfOk result (λ end. IsNone end → take (length ledger.old.rules) (records D.meaning ledger.new) ≡ records D.meaning ledger.old) }
{
    match ledger.claim() {
        Claimed::Work(pack) => {
            let Ok(filing) = expander.expand(alloc, ledger.class(pack.number())) else {
                ledger.give_back(pack);
                return Err(AllocError);
            };
            let Err((pack, _)) = ledger.file(pack, filing) else {
                return Ok(None);
            };
            ledger.give_back(pack);
            Err(AllocError)
        }
        Claimed::Spent => Ok(Some(Reason::Budget)),
        Claimed::Idle => Ok(Some(Reason::Exhausted)),
        Claimed::Finished => Ok(Some(Reason::Exhausted)),
    }
}
