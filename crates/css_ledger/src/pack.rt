ghost use Rattle.std.specs.Prelude.{◌≡◌, ◌==◌, if◌then◌else◌};
ghost use Rattle.css_domain.specs.Ledgers.Claimed.{Spent, Idle, Finished};
ghost use Rattle.css_ledger.specs.Answers.{claimed_as};

/// The leave to file the rules of one class, which is out until then. It can't be dropped: a ledger files it or
/// takes it back.
pub struct Pack {
    number: u32,
}

impl Pack {
    /// The number of its class. Takes no memory.
    pub fn number(&self) -> u32
        ensures { result ≡ self.now.number }
    {
        self.number
    }
}

pub(crate) fn pack_of(number: u32) -> Pack
    ensures { result.number ≡ number }
{
    Pack { number }
}

pub(crate) fn spend(pack: Pack) -> u32
    ensures { result ≡ pack.number }
{
    let Pack { number } = pack;
    number
}

/// What a claim answers: a class to file; that out and done classes are as many as the budget; that no class
/// is fresh, but one is out; or that all classes are done.
pub enum Claimed {
    Work(Pack),
    Spent,
    Idle,
    Finished,
}

/// The answer where no class is fresh and so many are out.
pub(crate) fn without_fresh(out: u32, spent: bool) -> Claimed
    ensures { claimed_as result ≡ (if out == 0 then Finished else (if spent then Spent else Idle)) }
{
    if out == 0 {
        return Claimed::Finished;
    }
    if spent {
        return Claimed::Spent;
    }
    Claimed::Idle
}
