ghost use Rattle.std.specs.Prelude.{◌≡◌, true};
ghost use Rattle.spec_lines.specs.Follows.{arity};
ghost use Rattle.spec_lines.specs.Ranges.{is_in_range, is_kind_in_range};
ghost use Rattle.line_readers.specs.Answers.{nothing_else};
ghost use Rattle.spec_reader.specs.Positions.{IsJumpOf};
ghost use Rattle.spec_reader.specs.Drafts.{is_of_rule};
ghost use Rattle.spec_reader.specs.Values.{value_of};

use crate::places::Jump;
use crate::readers::Number;
use css_terms::Term;
use gridded::Gridded;
use perm_core::Perm;
use rule_kinds::Kind;
use sequences::Sequence;
use steps::Step;

/// A line whose quantities are in their ranges, as far as the line alone can tell.
#[derive(Drop)]
pub(crate) enum LineValue {
    First,
    Basis(Sequence<Perm>),
    Root(Sequence<Step>),
    Count(u32),
    Entry(u32, u32),
    Grid(u8, u8),
    Obstructions(Sequence<Gridded>),
    Requirements(Sequence<Sequence<Gridded>>),
    Rule(Kind),
    Child(u32, Sequence<Step>),
    Terms(Sequence<Term>),
    End,
}

/// A line of the form: its value, or only what it says of the lines after it, where it is out of range.
#[derive(Drop)]
pub(crate) enum LineRead {
    InRange(LineValue),
    Beyond(Jump),
}

/// How many children a rule of the kind has.
pub(crate) fn children_of(kind: &Kind) -> usize
    requires { is_kind_in_range kind.now ≡ true }
    ensures { result ≡ arity kind.now }
{
    match kind {
        Kind::Unit | Kind::Point | Kind::Void => 0,
        Kind::Insert(_) => 2,
        Kind::Place(pointed, _) => pointed.len() + 1,
        Kind::RowCut(_, _) | Kind::ColumnCut(_, _) | Kind::Infer(_) => 1,
        Kind::Factor(sets) => sets.len(),
    }
}

impl LineValue {
    /// Whether it is a line of a rule or of one of its children.
    pub(crate) fn is_of_rule(&self) -> bool
        ensures { result ≡ is_of_rule self.now }
    {
        matches!(self, LineValue::Rule(_) | LineValue::Child(_, _))
    }

    /// What the line says of the lines after it.
    pub(crate) fn jump(&self) -> Jump
        requires { is_in_range nothing_else (value_of self.now) ≡ true }
        ensures { IsJumpOf (value_of self.now) result }
    {
        match self {
            LineValue::Count(entries) => Jump::Entries(Number::of(*entries)),
            LineValue::Rule(kind) => Jump::Children(children_of(kind)),
            _ => Jump::Plain,
        }
    }
}

/// Why a line is not taken.
#[derive(Clone, Copy, Debug, PartialEq, Eq, Drop)]
pub enum LineFault {
    /// No text has the lines that were taken, and this one after them.
    Form,
    /// There was no memory.
    Memory,
}
