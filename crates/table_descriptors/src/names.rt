//! Names of databases, tables, columns, clusters and collections.
ghost use Rattle.std.specs.Prelude.{◌≡◌, true, IfOk, Some};
ghost use Rattle.std.specs.List.{list_all};
ghost use Rattle.std.specs.Str.{bytes_eq};
ghost use Rattle.table_descriptors.specs.Names.{is_name_start, is_name_byte, is_name_text, is_name, name_of};

use crate::limits::NAME_BYTES_MAX;
use mvcc_keys::Memory;
use std::alloc::Global;
use std::fmt;
use std::marker::Model;

/// From 1 to 32 bytes: a lower-case letter or `_`, then those and digits.
#[derive(Debug, Drop)]
pub struct Name {
    text: String,
}

impl Model for Name {
    ghost use Rattle.std.specs.Prelude.{◌≡◌, true, List, ℕ, string_bytes};
    ghost use Rattle.table_descriptors.specs.Names.{is_name};

    ghost Value = { List ℕ };

    ghost view = { λ n. string_bytes n.text };

    ghost invariant = { λ n. is_name (string_bytes n.text) ≡ true };
}

fn is_name_start(b: u8) -> bool
    ensures { result ≡ is_name_start b }
{
    97 <= b && b <= 122 || b == 95
}

fn is_name_byte(b: u8) -> bool
    ensures { result ≡ is_name_byte b }
{
    is_name_start(b) || 48 <= b && b <= 57
}

fn are_name_bytes(bytes: &[u8]) -> bool
    ensures { result ≡ list_all is_name_byte bytes.now }
{
    bytes.iter().all(|b| is_name_byte(*b))
}

fn is_name_text(bytes: &[u8]) -> bool
    ensures { result ≡ is_name_text bytes.now }
{
    match bytes.split_first() {
        Some((first, rest)) => is_name_start(*first) && are_name_bytes(rest),
        None => false,
    }
}

#[tactic(auto, unfolding(crate::specs::Names::is_name))]
fn is_name(bytes: &[u8]) -> bool
    ensures { result ≡ is_name bytes.now }
{
    bytes.len() <= NAME_BYTES_MAX && is_name_text(bytes)
}

impl Name {
    /// The name that bytes spell, None where they are none.
    #[tactic(auto, using(crate::proofs::Ascii::name_is_utf8))]
    pub fn parse(alloc: Global, bytes: &[u8]) -> Result<Option<Name>, Memory>
        ensures { IfOk result (λ n. n ≡ name_of bytes.now) }
    {
        if !is_name(bytes) {
            return Ok(None);
        }
        match str::from_utf8(bytes) {
            Ok(text) => Ok(Some(Name {
                text: String::from_str(alloc, text)?,
            })),
            Err(_) => unreachable!(),
        }
    }

    pub fn copy(&self, alloc: Global) -> Result<Name, Memory>
        ensures same { IfOk result (λ n. n ≡ self.now) }
        ensures form { IfOk result (λ n. is_name n ≡ true) }
    {
        Ok(Name {
            text: String::from_str(alloc, self.text.as_str())?,
        })
    }

    pub fn as_str(&self) -> &str
        ensures { result.now ≡ self.now }
    {
        self.text.as_str()
    }

    pub fn as_bytes(&self) -> &[u8]
        ensures bytes { result.now ≡ self.now }
        ensures form { is_name result.now ≡ true }
    {
        self.text.as_bytes()
    }

    pub fn is_same(&self, other: &Name) -> bool
        ensures { result ≡ bytes_eq self.now other.now }
    {
        self.text.as_bytes() == other.text.as_bytes()
    }
}

impl fmt::Display for Name {
    ghost output = { λ n. Some n };

    fn fmt<W: fmt::Write>(&self, f: &mut fmt::Formatter<W>) -> fmt::Result {
        f.write_str(self.text.as_str())
    }
}
