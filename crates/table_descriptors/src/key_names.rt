//! The key columns that a new table is given.
ghost use Rattle.std.specs.Prelude.{◌≡◌, ◌<◌, length};

use crate::names::Name;
use std::marker::Model;

/// At least one name, each with whether its column descends.
#[derive(Debug, Drop)]
pub struct KeyNames {
    names: Vec<(Name, bool)>,
}

impl Model for KeyNames {
    ghost use Rattle.std.specs.Prelude.{ℕ, Bool, List, ◌<◌, length};

    ghost Value = { List (List ℕ × Bool) };

    ghost view = { λ k. k.names.items };

    ghost invariant = { λ k. 0 < length k.names.items };
}

impl KeyNames {
    pub fn from_vec(names: Vec<(Name, bool)>) -> KeyNames
        requires { 0 < length names.items }
        ensures { result ≡ names.items }
    {
        KeyNames { names }
    }

    pub fn as_slice(&self) -> &[(Name, bool)]
        ensures names { result.now ≡ self.now }
        ensures some { 0 < length result.now }
    {
        self.names.as_slice()
    }
}
