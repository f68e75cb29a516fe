ghost use Rattle.std.specs.Prelude.{◌≡◌, ◌≢◌, [], ◌∷◌, IsNone, map, string_bytes};
ghost use Rattle.outside.specs.Bytes.{GrewBy};
ghost use Rattle.outside.specs.Counts.{Rose};
ghost use Rattle.tilescope.specs.Answers.{AreRefused, AskForSearch, AskOfText, AskForListing, IsOneOf, IsStatus, IsSilent, IsUsage, IsUsagePrefix, IsFoundWritten, IsAcceptedText, IsNoneWritten, HasSpecification, IsByPack, HasNoSpecification, HasEnded, IsBeyondPack, IsSolved, IsSearchPrefix, IsCheckedWritten, IsRejectedWritten, IsVerdictPrefix, IsUnread, IsTooLong, IsWithin, IsDecided, AreTextsShort, IsListingWritten, IsListingPrefix, AreListingsShort};

use crate::answer::answer_to;
use crate::made::Answer;
use command_words::words_mean_one_thing;
use css_ledger::Ledger;
use outside::{Sink, Source, write_all};
use std::alloc::Global;
use tile_rules::Tiles;

/// How a command ended.
#[derive(Drop)]
pub struct Ended {
    /// 0 done, 1 none found, 2 the words are refused, 3 the text is refused, 4 a read failed, 5 a write failed, 6
    /// out of memory, 7 what was read, or the text of a search, has over 268,435,456 bytes.
    pub status: u8,
    /// The ledger of a search that had solved.
    pub ledger: Option<Ledger<Tiles>>,
}

/// Does what the words after the program's name ask for (docs/FORMATS.md, "Command words"), with one
/// worker. All that it writes is made first and written last. `check` and `terms` read all that the source has
/// left; no other command uses it.
pub fn run_plain<S: Source, K: Sink>(
    alloc: Global,
    words: &[String],
    source: &mut S,
    sink: &mut K,
) -> Ended
    ensures statuses { IsStatus result.status }
    ensures refused { AreRefused 1 (map string_bytes words.now) → IsOneOf result.status (2 ∷ 5 ∷ 6 ∷ []) }
    ensures search { AskForSearch 1 (map string_bytes words.now) → IsOneOf result.status (0 ∷ 1 ∷ 5 ∷ 6 ∷ 7 ∷ []) }
    ensures text { AskOfText (map string_bytes words.now) → IsOneOf result.status (0 ∷ 3 ∷ 4 ∷ 5 ∷ 6 ∷ 7 ∷ []) }
    ensures listing { AskForListing (map string_bytes words.now) → IsOneOf result.status (0 ∷ 5 ∷ 6 ∷ 7 ∷ []) }
    ensures source { (AskOfText (map string_bytes words.now) → ⊥) → source.new ≡ source.old }

    ensures found { AskForSearch 1 (map string_bytes words.now) → result.status ≡ 0 → IsFoundWritten 1 (map string_bytes words.now) result.ledger (K.held sink.old) (K.held sink.new) }
    ensures valid { AskForSearch 1 (map string_bytes words.now) → result.status ≡ 0 → HasSpecification 1 (map string_bytes words.now) result.ledger }
    ensures by_pack { AskForSearch 1 (map string_bytes words.now) → result.status ≡ 0 → IsByPack 1 (map string_bytes words.now) result.ledger }
    ensures accepted_text { AskForSearch 1 (map string_bytes words.now) → result.status ≡ 0 → IsAcceptedText 1 (map string_bytes words.now) result.ledger (K.held sink.old) (K.held sink.new) }
    ensures none { result.status ≡ 1 → IsNoneWritten 1 (map string_bytes words.now) result.ledger (K.held sink.old) (K.held sink.new) }
    ensures no_specification { result.status ≡ 1 → HasNoSpecification 1 (map string_bytes words.now) result.ledger }
    ensures ended { result.status ≡ 1 → HasEnded 1 (map string_bytes words.now) result.ledger }
    ensures beyond { result.status ≡ 1 → IsBeyondPack 1 (map string_bytes words.now) result.ledger }
    ensures usage { result.status ≡ 2 → IsUsage 1 (map string_bytes words.now) (K.held sink.old) (K.held sink.new) }

    ensures checked { AskOfText (map string_bytes words.now) → result.status ≡ 0 → IsCheckedWritten (map string_bytes words.now) (S.left source.old) (S.left source.new) (K.held sink.old) (K.held sink.new) }
    ensures rejected { result.status ≡ 3 → IsRejectedWritten (map string_bytes words.now) (S.left source.old) (S.left source.new) (K.held sink.old) (K.held sink.new) }
    ensures listed { AskForListing (map string_bytes words.now) → result.status ≡ 0 → IsListingWritten (map string_bytes words.now) (K.held sink.old) (K.held sink.new) }
    ensures unread { result.status ≡ 4 → IsUnread (map string_bytes words.now) (Rose (S.faults source.old) (S.faults source.new)) }
    ensures write_fault { result.status ≡ 5 → Rose (K.faults sink.old) (K.faults sink.new) }
    ensures long { result.status ≡ 7 → IsTooLong 1 (map string_bytes words.now) (S.left source.old) (S.left source.new) result.ledger }
    ensures untouched { IsSilent result.status → sink.new ≡ sink.old }
    ensures silent { IsSilent result.status → GrewBy (K.held sink.old) (K.held sink.new) [] }

    ensures complete_text { AskOfText (map string_bytes words.now) → (within : IsWithin (S.left source.old)) → (Rose (S.faults source.old) (S.faults source.new) → ⊥) → (Rose (K.faults sink.old) (K.faults sink.new) → ⊥) → IsDecided (map string_bytes words.now) within.bytes result.status }
    ensures complete_search { AskForSearch 1 (map string_bytes words.now) → AreTextsShort 1 (map string_bytes words.now) result.ledger → (Rose (K.faults sink.old) (K.faults sink.new) → ⊥) → IsOneOf result.status (0 ∷ 1 ∷ 6 ∷ []) }
    ensures complete_listing { AskForListing (map string_bytes words.now) → AreListingsShort (map string_bytes words.now) → (Rose (K.faults sink.old) (K.faults sink.new) → ⊥) → IsOneOf result.status (0 ∷ 6 ∷ []) }

    ensures solved { AskForSearch 1 (map string_bytes words.now) → result.status ≢ 6 → IsSolved 1 (map string_bytes words.now) result.ledger }
    ensures no_ledger { (AskForSearch 1 (map string_bytes words.now) → ⊥) → IsNone result.ledger }
    ensures nothing_kept { result.status ≡ 6 → IsNone result.ledger }

    ensures search_prefix { AskForSearch 1 (map string_bytes words.now) → result.status ≡ 5 → IsSearchPrefix 1 (map string_bytes words.now) result.ledger (K.held sink.old) (K.held sink.new) }
    ensures usage_prefix { AreRefused 1 (map string_bytes words.now) → result.status ≡ 5 → IsUsagePrefix 1 (map string_bytes words.now) (K.held sink.old) (K.held sink.new) }
    ensures listing_prefix { AskForListing (map string_bytes words.now) → result.status ≡ 5 → IsListingPrefix (map string_bytes words.now) (K.held sink.old) (K.held sink.new) }
    ensures text_prefix { AskOfText (map string_bytes words.now) → result.status ≡ 5 → IsVerdictPrefix (map string_bytes words.now) (S.left source.old) (S.left source.new) (K.held sink.old) (K.held sink.new) }
{
    words_mean_one_thing();
    let Ok(
        Answer {
            status,
            text,
            ledger,
        },
    ) = answer_to(alloc, words, source)
    else {
        return Ended {
            status: 6,
            ledger: None,
        };
    };
    let Some(text) = text else {
        return Ended { status, ledger };
    };
    match write_all(sink, text.as_slice()) {
        Ok(()) => Ended { status, ledger },
        Err(_) => Ended { status: 5, ledger },
    }
}
