//! The rules that a new table has to meet.
ghost use Rattle.std.specs.Prelude.{◌≡◌, ◌≤◌, length, IfNone};
ghost use Rattle.std.specs.List.{list_any};
ghost use Rattle.std.specs.Str.{bytes_eq};
ghost use Rattle.table_descriptors.specs.Descriptors.{repeats_column, repeats_key_column, repeats_id, are_columns, broken_rule};
ghost use Rattle.table_descriptors.specs.declared.limits.TheConstants.{COLUMNS_MAX};

use crate::limits::COLUMNS_MAX;
use crate::names::Name;
use row_codec::Kind;

fn has_column(columns: &[(Name, Kind)], name: &Name) -> bool
    ensures { result ≡ list_any (λ c. bytes_eq c.0 name.now) columns.now }
{
    columns.iter().any(|(column, _)| column.is_same(name))
}

fn has_key_name(key: &[(Name, bool)], name: &Name) -> bool
    ensures { result ≡ list_any (λ c. bytes_eq c.0 name.now) key.now }
{
    key.iter().any(|(column, _)| column.is_same(name))
}

/// Whether some column name stands twice.
fn repeats_column(columns: &[(Name, Kind)]) -> bool
    ensures { result ≡ repeats_column columns.now }
{
    let mut rest = columns;
    'all: while !rest.is_empty() {
        let others = rest.split_at(1).1;
        if has_column(others, &rest[0].0) {
            return true;
        }
        rest = others;
    }
    false
}

/// Whether some key column stands twice.
fn repeats_key_column(key: &[(Name, bool)]) -> bool
    ensures { result ≡ repeats_key_column key.now }
{
    let mut rest = key;
    'all: while !rest.is_empty() {
        let others = rest.split_at(1).1;
        if has_key_name(others, &rest[0].0) {
            return true;
        }
        rest = others;
    }
    false
}

/// Whether some id stands twice.
pub fn repeats_id(ids: &[u32]) -> bool
    ensures { result ≡ repeats_id ids.now }
{
    let mut rest = ids;
    'all: while !rest.is_empty() {
        let others = rest.split_at(1).1;
        if others.contains(&rest[0]) {
            return true;
        }
        rest = others;
    }
    false
}

/// Whether each key column is a column.
fn are_columns(columns: &[(Name, Kind)], key: &[(Name, bool)]) -> bool
    ensures { result ≡ are_columns columns.now key.now }
{
    key.iter().all(|(name, _)| has_column(columns, name))
}

/// The least number of a rule that a new table breaks. Whether a reference is repeated is told,
/// since a command compares references as names, and a descriptor as ids.
pub fn broken_rule(
    columns: &[(Name, Kind)],
    key: &[(Name, bool)],
    repeats_reference: bool,
) -> Option<u8>
    ensures which { result ≡ broken_rule columns.now key.now repeats_reference }
    ensures few { IfNone result (length columns.now ≤ COLUMNS_MAX) }
{
    if repeats_column(columns) {
        return Some(1);
    }
    if !are_columns(columns, key) {
        return Some(2);
    }
    if repeats_key_column(key) {
        return Some(3);
    }
    if columns.len() > COLUMNS_MAX {
        return Some(4);
    }
    if repeats_reference {
        return Some(8);
    }
    None
}
