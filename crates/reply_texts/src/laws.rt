//! A law of the lines of rows.
ghost use Rattle.reply_texts.specs.ReadBack.{ValuesReadBack};

/// A law: what is written of a value is one token of a script, which says that value; and what is
/// written of a row is a row of a script, of the same values.
pub fn values_read_back()
    ensures { ValuesReadBack }
{}
