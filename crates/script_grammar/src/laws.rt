//! Laws of the grammar.
ghost use Rattle.script_grammar.specs.Parts.{PartsAreExact, SourcesAreExact};

use mvcc_keys::times_are_exact;

/// A law: what is read of tokens from the left is what the parts say, with the place at which
/// tokens that say nothing break off.
pub fn parts_are_exact()
    ensures { PartsAreExact }
{}

/// A law: a text is read as a source exactly where it is a name, `/` and a time.
pub fn sources_are_exact()
    ensures { SourcesAreExact }
{
    times_are_exact();
}
