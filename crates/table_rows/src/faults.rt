//! Why rows aren't taken or shown.
ghost use Rattle.std.specs.Prelude.{◌≡◌};
ghost use Rattle.table_rows.specs.declared.faults.RowsFault.TheVariants.{Memory as no_memory};

use mvcc_keys::{Hlc, Memory};

/// Why the rows or keys that a command gives aren't taken. Rows count from 1.
#[derive(Clone, Copy, Debug, PartialEq, Eq)]
pub enum RowsFault {
    /// The place, from 1, of the first value of the wrong type, or NULL in a key; column 0: a wrong
    /// count of values.
    WrongRow { row: usize, column: usize },
    /// The key columns take more than `ROW_KEY_BYTES_MAX`, or the row's value more than
    /// `ROW_VALUE_BYTES_MAX`.
    TooLarge { row: usize },
    /// The row's key came earlier in the list.
    DuplicateKey { row: usize },
    /// The first key isn't before the second.
    EmptyRange,
    Memory,
}

impl From<Memory> for RowsFault {
    ghost from_gives = { λ _ e. e ≡ no_memory };

    fn from(_refused: Memory) -> RowsFault {
        RowsFault::Memory
    }
}

/// Why rows aren't shown.
#[derive(Clone, Copy, Debug, PartialEq, Eq)]
pub enum SelectFault {
    /// The time is before this one, up to which versions were collected.
    Collected { threshold: Hlc },
    Memory,
}

impl From<Memory> for SelectFault {
    ghost use Rattle.table_rows.specs.declared.faults.SelectFault.TheVariants.{Memory as wanted};

    ghost from_gives = { λ _ e. e ≡ wanted };

    fn from(_refused: Memory) -> SelectFault {
        SelectFault::Memory
    }
}
