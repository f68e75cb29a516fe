// What a step tells of the tiling that it leaves.
ghost use Rattle.std.specs.Prelude.{◌≡◌};
ghost use Rattle.normal_form.specs.Known.{known_after};

use steps::Step;

/// What is known of a tiling before its first step is looked for.
#[derive(Clone, Copy)]
pub(crate) enum Known {
    Nothing,
    /// No obstruction holds another.
    Minimal,
    /// No step but Column and Row applies.
    LinesAlone,
}

/// What is known after a step that was the first to apply. Lists, Column and Row are reached only where no
/// obstruction holds another, and change no obstruction but by moving its cells; what Column and Row leave is as
/// tidy and clean as it was.
pub(crate) fn known_after(step: Step) -> Known
    ensures { result ≡ known_after step }
{
    match step {
        Step::Min | Step::Lists => Known::Minimal,
        Step::Column(_) | Step::Row(_) => Known::LinesAlone,
        Step::Clean(_) | Step::Void => Known::Nothing,
    }
}
