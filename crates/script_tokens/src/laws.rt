//! Laws of the tokens of a line.
ghost use Rattle.std.specs.Prelude.{◌≡◌, ℕ, List, ◌∷◌, true, nat_le, length, map};
ghost use Rattle.std.specs.Char.{to_ascii_lowercase};
ghost use Rattle.std.specs.List.{take_while};
ghost use Rattle.table_descriptors.specs.Names.{is_name};
ghost use Rattle.script_tokens.specs.Spellings.{PiecesAreExact};
ghost use Rattle.script_tokens.specs.Tokens.{is_word_start, is_word_byte};

/// A law: the tokens of a line are the longest bytes with which spellings begin, blanks between them
/// left out, up to the first that are no token; and no other pieces are.
pub fn pieces_are_exact()
    ensures { PiecesAreExact }
{}

/// A law: what begins as a word is a name in lower case exactly where it has at most 32 bytes.
pub fn words_are_names()
    ensures { (b : ℕ) (bs : List ℕ) → is_word_start b ≡ true → is_name (map to_ascii_lowercase (take_while is_word_byte (b ∷ bs))) ≡ nat_le (length (take_while is_word_byte (b ∷ bs))) 32 }
{}
