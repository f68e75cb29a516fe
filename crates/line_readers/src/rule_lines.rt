ghost use Rattle.std.specs.Prelude.{◌≡◌, codes, Some};
ghost use Rattle.rule_kinds.specs.declared.kind.Kind.{Kind as RuleKind};
ghost use Rattle.spec_lines.specs.Follows.{arity};
ghost use Rattle.spec_lines.specs.Items.{behind, items};
ghost use Rattle.spec_lines.specs.Forms.Line.{Rule};
ghost use Rattle.spec_lines.specs.Follows.Place.{AtRule};
ghost use Rattle.spec_lines.specs.Readings.{line_at};
ghost use Rattle.line_readers.specs.Arities.{children_in};
ghost use Rattle.line_readers.specs.Answers.{IsLineAnswer};

use crate::fault::ItemFault;
use crate::kinds::{children_in, read_kind};
use crate::lines::behind;
use rule_kinds::Kind;
use std::alloc::Global;

/// The kind of the line `rule`, in the first version of the text.
pub fn rule_line(alloc: Global, version: u8, line: &[u8]) -> Result<Kind, ItemFault>
    requires { version ≡ 1 }
    ensures { IsLineAnswer (line_at (AtRule 0 0) line.now) (λ kind. Rule kind) result }
{
    let _ = version;
    let Some(items) = behind(line, b"rule") else {
        return Err(ItemFault::Form);
    };
    read_kind(alloc, items)
}

/// How many children a rule has by its line.
fn children_of_line(line: &[u8]) -> usize
    ensures { result ≡ children_in (behind (codes "rule") (items 32 line.now)) }
{
    match behind(line, b"rule") {
        Some(items) => children_in(items),
        None => 0,
    }
}

/// How many children the rule of the line `rule` has, in range or not.
pub fn rule_children(line: &[u8]) -> usize
    ensures { (k : RuleKind) → line_at (AtRule 0 0) line.now ≡ Some (Rule k) → result ≡ arity k }
{
    children_of_line(line)
}
