ghost use Rattle.std.specs.Prelude.{◌≡◌};

use crate::domain::Domain;
use std::marker::Model;

/// The rules that the exploration found for one class, which contracts see as their list.
#[derive(Drop)]
pub struct Filing<D: Domain> {
    rules: Vec<D::Rule>,
}

impl<D: Domain> Model for Filing<D> {
    ghost use Rattle.std.specs.Prelude.{List};

    ghost Value = { List D.Rule };

    ghost view = { λ filing. filing.rules.items };
}

impl<D: Domain> Filing<D> {
    /// The filing of these rules. Takes no memory.
    pub fn of(rules: Vec<D::Rule>) -> Filing<D>
        ensures { result ≡ rules.items }
    {
        Filing { rules }
    }

    /// The rules, in order. Takes no memory.
    pub fn as_slice(&self) -> &[D::Rule]
        ensures { result.now ≡ self.now }
    {
        self.rules.as_slice()
    }

    /// The vector of the rules. Takes no memory.
    pub fn into_vec(self) -> Vec<D::Rule>
        ensures { result.items ≡ self }
    {
        let Filing { rules } = self;
        rules
    }
}
