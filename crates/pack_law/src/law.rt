ghost use Rattle.pack_law.specs.Tried.{AloneIsFiled, ClassesAreNormal, CompleteAreTried, CompleteIsDetermined, FiledAreTried, NoSpec, SpecIsFiled};

use normal_form::traces_are_determined;

/// The complete filing of a tiling for some packs is determined, and its rules are those that the packs try.
/// Where all classes of a ledger are filed for them, each specification of its root by such rules is one by
/// the ledger's rules; so there is none where the root doesn't stand. Where it stands, a specification by the
/// ledger's rules is one by such rules. All its classes are normal. Computes nothing.
pub fn exhausted_is_beyond_the_pack()
    ensures determined { CompleteIsDetermined }
    ensures tried { CompleteAreTried }
    ensures filed { SpecIsFiled }
    ensures none { NoSpec }
    ensures found { FiledAreTried }
    ensures normal { ClassesAreNormal }
    ensures alone { AloneIsFiled }
{
    traces_are_determined();
}
