use crate::rule::LogSeat;
use std::marker::Model;

/// Stands for a count of words that the writer had published. It may cross threads; the reader takes it in.
#[derive(Drop)]
pub struct Note {
    pub(crate) seat: LogSeat,
    pub(crate) front: u64,
}

impl Model for Note {
    ghost use Rattle.std.specs.Prelude.{◌≡◌, ◌+◌, ◌≤◌};
    ghost use Rattle.css_log.specs.States.{NoteState};
    ghost use Rattle.css_log.specs.Told.{seated};
    ghost use Rattle.css_log.specs.declared.view.View.TheVariants.{Notes};

    ghost Value = { NoteState };

    ghost view = { λ n. record { log = n.seat.table_id; front = n.front } };

    ghost invariant = { λ n.
        (n.seat.me ≡ seated (Notes n.front))
        × (n.front + 2 ≤ n.seat.table_id.words) };
}

impl Note {
    ghost use Rattle.std.specs.Prelude.{◌≡◌};

    /// The count that it stands for. Takes no memory.
    pub fn front(&self) -> u64
        ensures { result ≡ self.now.front }
    {
        self.front
    }
}
