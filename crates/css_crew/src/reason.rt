/// Why a ledger ends: its root stands; it doesn't, and all classes are done; or it doesn't, some class isn't
/// done, and the done classes are as many as the budget.
#[derive(Clone, Copy, Debug, PartialEq, Eq)]
pub enum Reason {
    Found,
    Budget,
    Exhausted,
}
