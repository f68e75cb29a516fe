ghost use Rattle.std.specs.Prelude.{◌≡◌, Some, None};
ghost use Rattle.tilescope.specs.Answers.{IsMade};

use css_ledger::Ledger;
use sequences::Sequence;
use tile_rules::Tiles;

/// So many bytes are read or written at most.
pub(crate) const MOST_BYTES: u64 = 268_435_456;

/// The status that a command ends with once its text is written, the text, and the ledger of a search. Where
/// there is no text, nothing is written.
#[derive(Drop)]
pub(crate) struct Answer {
    pub(crate) status: u8,
    pub(crate) text: Option<Sequence<u8>>,
    pub(crate) ledger: Option<Ledger<Tiles>>,
}

impl Answer {
    /// An answer that writes nothing.
    pub(crate) fn silent(status: u8) -> Answer
        ensures { result ≡ record { status = status; text = None; ledger = None } }
    {
        Answer {
            status,
            text: None,
            ledger: None,
        }
    }

    /// An answer with a line, and no ledger.
    pub(crate) fn of_line(status: u8, line: Vec<u8>) -> Answer
        ensures { result ≡ record { status = status; text = Some line.items; ledger = None } }
    {
        Answer {
            status,
            text: Some(Sequence::of(line)),
            ledger: None,
        }
    }

    /// An answer with a text, which is not written where it has over 268,435,456 bytes: the status is 7 then.
    pub(crate) fn of(status: u8, text: Vec<u8>, ledger: Option<Ledger<Tiles>>) -> Answer
        ensures { IsMade status text.items ledger result.status result.text result.ledger }
    {
        if text.len() as u64 > MOST_BYTES {
            return Answer {
                status: 7,
                text: None,
                ledger,
            };
        }
        Answer {
            status,
            text: Some(Sequence::of(text)),
            ledger,
        }
    }
}
