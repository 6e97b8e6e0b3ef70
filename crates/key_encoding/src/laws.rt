//! What holds of each code: the order of bytes is the order of values whatever follows them, the
//! reader takes just the spellings, and no spelling begins another.
ghost use Rattle.std.specs.Ordering.{nat_cmp, int_cmp};
ghost use Rattle.std.specs.Cmp.Lexicographic.{slice_cmp};
ghost use Rattle.key_encoding.specs.EscapeFaults.{EscapeFaultsAreFirst};
ghost use Rattle.key_encoding.specs.Coding.{IsCode, IsSignedWord, IsWord, turned_round};
ghost use Rattle.list_laws.specs.Bytes.{AreBytes};
ghost use Rattle.key_encoding.specs.Reading.{read_bytes, read_bytes_down, read_uvarint, read_varint, read_varint_down};
ghost use Rattle.key_encoding.specs.Spelling.{bytes_code, bytes_down_code, uvarint, varint, varint_down};

/// A law on numbers.
pub fn uvarints_are_a_code()
    ensures { IsCode IsWord nat_cmp uvarint read_uvarint }
{}

/// A law on signed numbers.
pub fn varints_are_a_code()
    ensures { IsCode IsSignedWord int_cmp varint read_varint }
{}

/// A law on signed numbers in the order turned round.
pub fn varints_down_are_a_code()
    ensures { IsCode IsSignedWord (turned_round int_cmp) varint_down read_varint_down }
{}

/// A law on bytes.
pub fn bytes_are_a_code()
    ensures { IsCode AreBytes (slice_cmp nat_cmp) bytes_code read_bytes }
{}

/// A law on bytes in the order turned round.
pub fn bytes_down_are_a_code()
    ensures { IsCode AreBytes (turned_round (slice_cmp nat_cmp)) bytes_down_code read_bytes_down }
{}

/// A law: the first byte directly after a 00 that isn't ff is the end of the bytes where it is 01
/// and else the place of their fault, and where there is none they end too early.
pub fn escape_faults_are_first()
    ensures { EscapeFaultsAreFirst }
{}
