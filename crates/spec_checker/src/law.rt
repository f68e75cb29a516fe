ghost use Rattle.spec_checker.specs.Laws.{AcceptedOnce, AcceptedOrRefused, RefusedOnce, CountsAreByRules};

use css_domain::counts_are_determined;
use spec_lines::texts_are_answered;
use spec_text::joined_entries_are_told;
use tile_rules::Tiles;

/// A text is accepted in one way, or refused with one fault, unless memory ran out (docs/FORMATS.md, "What the checker
/// does"). It computes nothing.
pub fn verdicts_are_one()
    ensures accepted { AcceptedOnce }
    ensures both { AcceptedOrRefused }
    ensures refused { RefusedOnce }
{
    texts_are_answered();
    joined_entries_are_told();
}

/// The capped counts of entry 0 are determined by the shapes of the rules alone (docs/RULES.md, "Terms"). It computes
/// nothing.
pub fn counts_are_by_rules()
    ensures { CountsAreByRules }
{
    counts_are_determined::<Tiles>();
}
