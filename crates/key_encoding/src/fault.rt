//! Why a key was refused.
ghost use Rattle.std.specs.Prelude.{◌≡◌};
ghost use Rattle.key_encoding.specs.Reading.{fault_at};

/// Want of memory.
#[derive(Debug, Clone, Copy, PartialEq, Eq)]
pub struct Memory;

/// What is wrong at the place of a fault.
#[derive(Debug, Clone, Copy, PartialEq, Eq)]
pub enum KeyKind {
    /// The input ends before the spelling does.
    Short,
    /// The first byte begins no spelling of the type.
    Marker,
    /// The bytes of a number aren't the one spelling of a value of the type.
    NotLeast,
    /// The byte after an escaped one neither escapes nor ends.
    Escape,
    /// No fault of the bytes: memory was wanting.
    Memory,
}

/// What is wrong with a key, and where.
#[derive(Debug, Clone, Copy, PartialEq, Eq)]
pub struct KeyFault {
    pub kind: KeyKind,
    pub offset: usize,
}

impl KeyFault {
    /// The fault of a kind at an offset.
    pub fn at(kind: KeyKind, offset: usize) -> KeyFault
        ensures { result ≡ fault_at kind offset }
    {
        KeyFault { kind, offset }
    }
}
