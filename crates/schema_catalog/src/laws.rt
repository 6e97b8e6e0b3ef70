//! What holds of tables that are dropped.
ghost use Rattle.schema_catalog.specs.DropLaws.{DropsAreOfThese};

/// A law: of tables dropped together each has one descriptor more, of the state Dropped and of
/// that date, and all other tables are as they were.
pub fn drops_are_of_these()
    ensures { DropsAreOfThese }
{}
