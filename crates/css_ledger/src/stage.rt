ghost use Rattle.std.specs.Prelude.{◌≡◌, ◌+◌, ◌<◌, ◌^◌, ℕ, [], length, position};
ghost use Rattle.css_ledger.specs.Stages.{is_fresh, is_out, is_done, stage_at, outs, IsNoneFresh};

/// What a class waits for: to be claimed, to be filed, or nothing.
#[derive(Clone, Copy, Debug, PartialEq, Eq)]
pub enum Stage {
    Fresh,
    Out,
    Done,
}

/// The least number whose class is fresh.
fn first_fresh(stages: &[Stage]) -> Option<usize>
    ensures { result ≡ position is_fresh stages.now }
{
    stages
        .iter()
        .position(|stage| matches!(stage, Stage::Fresh))
}

/// The least number whose class is fresh, where none below the mark is.
pub fn least_fresh(stages: &[Stage], low: usize) -> Option<usize>
    requires few { length stages.now < 2 ^ 28 }
    requires mark { IsNoneFresh low stages.now }
    ensures { result ≡ position is_fresh stages.now }
{
    match first_fresh(&stages[low..]) {
        Some(place) => Some(low + place),
        None => None,
    }
}

/// Whether the number is that of a class that is out.
pub fn out_at(stages: &[Stage], number: usize) -> bool
    ensures { result ≡ is_out (stage_at stages.now number) }
{
    if number >= stages.len() {
        return false;
    }
    matches!(stages[number], Stage::Out)
}

/// Whether the number is that of a class that is done.
pub fn done_at(stages: &[Stage], number: usize) -> bool
    ensures { result ≡ is_done (stage_at stages.now number) }
{
    if number >= stages.len() {
        return false;
    }
    matches!(stages[number], Stage::Done)
}

/// Makes each class that is out fresh again.
pub fn recall_all(stages: &mut [Stage])
    ensures none { outs stages.new ≡ [] }
    ensures done { (n : ℕ) → is_done (stage_at stages.new n) ≡ is_done (stage_at stages.old n) }
{
    for place in 0..stages.len() {
        if out_at(stages, place) {
            stages[place] = Stage::Fresh;
        }
    }
}
