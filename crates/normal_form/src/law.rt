ghost use Rattle.normal_form.specs.Measure.{StepsShrink};
ghost use Rattle.normal_form.specs.TraceLaws.{TraceIsTotal, TraceIsFunctional, TracesEndNormal, NormalWhereNoneIsFirst, StepsKeepTilings, ReplaysKeepTilings, ReplaysKeepMembers};

use steps::steps_keep_members;

/// Every step that applies makes the size of a tiling smaller, so each trace ends (docs/RULES.md, "Reduction
/// steps").
pub fn steps_shrink()
    ensures { StepsShrink }
{}

/// Each tiling has exactly one trace, which leads to a normal tiling, and no step is first exactly where none
/// applies (docs/RULES.md, "Reduction steps").
pub fn traces_are_determined()
    ensures total { TraceIsTotal }
    ensures functional { TraceIsFunctional }
    ensures ends { TracesEndNormal }
    ensures normal { NormalWhereNoneIsFirst }
{}

/// What steps that apply make of a tiling is a tiling, and its members are those of the first one to one up to
/// the renaming of cells, with their lengths, so their numbers stay (docs/RULES.md, "Reduction steps").
pub fn replays_keep_members()
    ensures steps { StepsKeepTilings }
    ensures tilings { ReplaysKeepTilings }
    ensures members { ReplaysKeepMembers }
{
    steps_keep_members();
}
