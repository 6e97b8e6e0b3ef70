//! What holds of a plan's entries.
ghost use Rattle.span_export.specs.Entries.{EntriesAreExact};
ghost use Rattle.span_export.specs.Pieces.{OthersAreUnseen, PiecesAreWhole};

/// A law: a plan's entries are exactly the facts that it has, each once, puts and deletions by key
/// and newest first, then range deletions by date.
pub fn entries_are_exact()
    ensures { EntriesAreExact }
{}

/// A law: whatever the size of the pieces, a plan's pieces put together are its entries, each
/// once and in order, and with pieces of one entry or more there is an end to them. What follows
/// a piece is what the piece leaves.
pub fn pieces_are_whole()
    ensures { PiecesAreWhole }
{}

/// A law: a fact that is added outside a plan's dates leaves the plan's entries as they were, so
/// pieces that are given at different times belong together.
pub fn others_are_unseen()
    ensures { OthersAreUnseen }
{}
