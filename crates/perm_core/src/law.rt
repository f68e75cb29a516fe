ghost use Rattle.perm_core.specs.Laws.{PermsAreThoseListed};

/// A word has the letters 0 to n - 1, each once, exactly where it is one of the permutations of length n.
pub fn perms_are_those_listed()
    ensures { PermsAreThoseListed }
{}
