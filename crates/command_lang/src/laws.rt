//! Laws of forms and of lines.
ghost use Rattle.std.specs.Prelude.{Bool, List, ℕ};
ghost use Rattle.script_grammar.specs.Columns.{IsExact};
ghost use Rattle.command_lang.specs.Forms.{command};
ghost use Rattle.command_lang.specs.Lines.{reading, Means};
ghost use Rattle.command_lang.specs.Typed.{ReadCommandsAreTyped};

/// A law: what is read of tokens from the left is what the forms say.
pub fn forms_are_exact()
    ensures { (first : Bool) → IsExact (command first) }
{}

/// A law: a reading says of its line what the forms say.
pub fn readings_are_exact()
    ensures { (first : Bool) (line : List ℕ) → Means first line (reading first line) }
{}

/// A law: every command that is read of a line is in form: its names are names, its values are of
/// their types, and its numbers in their ranges.
pub fn read_commands_are_typed()
    ensures { ReadCommandsAreTyped }
{}
