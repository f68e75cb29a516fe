ghost use Rattle.std.specs.Prelude.{◌≡◌};
ghost use Rattle.spec_lines.specs.Forms.{ascending};

/// Whether each item is smaller than the next.
#[tactic(auto, using(crate::proofs::Ascents::two_behind, crate::proofs::Ascents::few_ascend))]
pub(crate) fn ascends<T: Ord>(items: &[T]) -> bool
    ensures { result ≡ ascending T.cmp items.now }
{
    for place in 1..items.len() {
        if !items[place - 1].cmp(&items[place]).is_lt() {
            return false;
        }
    }
    true
}
