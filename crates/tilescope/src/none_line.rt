ghost use Rattle.std.specs.Prelude.{◌≡◌, ◌++◌, IfOk, OnOk, codes, decimal};
ghost use Rattle.css_crew.specs.Ways.{reason_as};
ghost use Rattle.css_ledger.specs.Answers.{counted_as};
ghost use Rattle.tilescope.specs.Searches.{reason_text, none_line};

use css_crew::Reason;
use css_ledger::Counts;
use spec_text::put_number;
use std::alloc::{AllocError, Global};

/// The word for why a search ended.
fn reason_word(reason: Reason) -> &'static [u8]
    ensures { result.now ≡ reason_text (reason_as reason) }
{
    match reason {
        Reason::Found => b"found",
        Reason::Budget => b"budget",
        Reason::Exhausted => b"exhausted",
    }
}

/// Appends a blank and a number.
pub(crate) fn put_count(out: &mut Vec<u8>, number: u32) -> Result<(), AllocError>
    ensures { OnOk result (out.new.items ≡ out.old.items ++ (codes " " ++ decimal number)) }
{
    out.extend_from_slice(b" ")?;
    put_number(out, number)
}

/// The line that says that a search found no specification, and why it ended: the expanded classes, the
/// classes and the rules of its ledger, in number.
pub(crate) fn none_line(
    alloc: Global,
    reason: Reason,
    counts: Counts,
) -> Result<Vec<u8>, AllocError>
    ensures { IfOk result (λ line. line.items ≡ none_line (reason_as reason) (counted_as counts)) }
{
    let mut out = Vec::from_slice(alloc, b"none ")?;
    out.extend_from_slice(reason_word(reason))?;
    put_count(&mut out, counts.expanded)?;
    put_count(&mut out, counts.classes)?;
    put_count(&mut out, counts.rules)?;
    out.push(b'\n')?;
    Ok(out)
}
