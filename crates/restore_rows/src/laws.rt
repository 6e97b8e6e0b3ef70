//! What holds of the first reading.
ghost use Rattle.restore_rows.specs.Checks.{ChecksFindFaults};

/// A law: no fault is found exactly where each chunk of each part is there with its digest, is a
/// chunk of the table as its manifest tells, and goes on where the chunk before it ended.
pub fn checks_find_faults()
    ensures { ChecksFindFaults }
{}
