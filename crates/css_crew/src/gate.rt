/// What is told of the acts of a crew while it works, and of nothing after its workers have ended. It can't
/// change what they do; where a call of it doesn't return, the one who made it waits.
pub trait Gate {
    /// The worker has claimed the class of the number.
    fn claimed(&self, worker: u32, number: u32);

    /// The worker is about to file the class of the number.
    fn filing(&self, worker: u32, number: u32);

    /// The searcher has looked at so many words, and found whether the root stands.
    fn searched(&self, front: u64, found: bool);
}

/// A gate that does nothing.
pub struct NoGate;

impl Gate for NoGate {
    fn claimed(&self, _worker: u32, _number: u32) {}

    fn filing(&self, _worker: u32, _number: u32) {}

    fn searched(&self, _front: u64, _found: bool) {}
}
