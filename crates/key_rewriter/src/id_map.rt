//! Old ids of tables and the new ones.
ghost use Rattle.std.specs.Prelude.{◌≡◌, ◌+◌, ◌≤◌, ◌^◌, ◌++◌, ◌∷◌, [], true, length, IfOk, OnOk, nat_eq};
ghost use Rattle.std.specs.Map.{lookup};
ghost use Rattle.key_rewriter.specs.Ids.{IsIdMap, are_ascending, numbered};

use key_encoding::Memory;
use std::alloc::Global;
use std::marker::Model;

/// Pairs of an old id and a new one, both ascending.
#[derive(Drop)]
pub struct IdMap {
    pairs: Vec<(u32, u32)>,
}

impl Model for IdMap {
    ghost use Rattle.std.specs.Prelude.{List, ℕ};
    ghost use Rattle.key_rewriter.specs.Ids.{IsIdMap};

    ghost Value = { List (ℕ × ℕ) };

    ghost view = { λ m. m.pairs.items };

    ghost invariant = { λ m. IsIdMap m.pairs.items };
}

/// Whether each id is less than the next.
pub fn are_ascending(ids: &[u32]) -> bool
    ensures { result ≡ are_ascending ids.now }
{
    let mut least = 0;
    for id in ids {
        if u64::from(*id) < least {
            return false;
        }
        least = u64::from(*id) + 1;
    }
    true
}

/// The second of the first pair that begins with a number.
fn partner_among(pairs: &[(u32, u32)], id: u64) -> Option<u32>
    ensures { result ≡ lookup (nat_eq id) pairs.now }
{
    for pair in pairs {
        if id == u64::from(pair.0) {
            return Some(pair.1);
        }
    }
    None
}

fn put_pair(pairs: &mut Vec<(u32, u32)>, old: u32, new: u32) -> Result<(), Memory>
    ensures { OnOk result (pairs.new.items ≡ pairs.old.items ++ ((old, new) ∷ [])) }
{
    pairs.push((old, new)).map_err(|_| Memory)
}

impl IdMap {
    /// The old ids paired with `first`, the id after it, and so on.
    pub fn new(alloc: Global, old: &[u32], first: u32) -> Result<IdMap, Memory>
        requires ascending { are_ascending old.now ≡ true }
        requires room { first + length old.now ≤ 2 ^ 32 }
        ensures { IfOk result (λ map. map ≡ numbered first old.now) }
    {
        let mut pairs = Vec::new(alloc);
        for i in 0..old.len() {
            put_pair(&mut pairs, old[i], first + i as u32)?;
        }
        Ok(IdMap { pairs })
    }

    /// The pairs, in order.
    pub fn pairs(&self) -> &[(u32, u32)]
        ensures pairs { result.now ≡ self.now }
        ensures both_ascend { IsIdMap self.now }
    {
        self.pairs.as_slice()
    }

    /// The new id of a number, if that is one of the old ids.
    pub(crate) fn partner(&self, id: u64) -> Option<u32>
        ensures { result ≡ lookup (nat_eq id) self.now }
    {
        partner_among(self.pairs.as_slice(), id)
    }

    /// The new id of an old one.
    pub fn get(&self, old: u32) -> Option<u32>
        ensures { result ≡ lookup (nat_eq old) self.now }
    {
        self.partner(u64::from(old))
    }
}
