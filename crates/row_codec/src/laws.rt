//! What holds of row keys and row values.
ghost use Rattle.row_codec.specs.FirstFaults.{KeyFaultsAreFirst, ValueFaultsAreFirst};
ghost use Rattle.row_codec.specs.RowKeys.{RowKeysAreExact, RowKeysAreOrdered};
ghost use Rattle.row_codec.specs.RowValues.{RowValuesAreExact};

/// A law: for keys of one table with given kinds, ascending and descending, the order of bytes is
/// the order of rows.
pub fn row_keys_are_ordered()
    ensures { RowKeysAreOrdered }
{}

/// A law: what is read as a row key are just the keys that are written, different keys have
/// different bytes, and no key of given kinds begins another.
pub fn row_keys_are_exact()
    ensures { RowKeysAreExact }
{}

/// A law: what is read as a row value are just the values that are written, and different ones
/// have different bytes.
pub fn row_values_are_exact()
    ensures { RowValuesAreExact }
{}

/// A law: bytes that are no row key are refused at the first field that isn't spelled there, or at
/// the first byte left over.
pub fn key_faults_are_first()
    ensures { KeyFaultsAreFirst }
{}

/// A law: bytes that are no row value are refused at the first cell that isn't spelled there or
/// isn't of a later column than the cell before it.
pub fn value_faults_are_first()
    ensures { ValueFaultsAreFirst }
{}
