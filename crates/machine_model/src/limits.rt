//! What a script, and the cluster that a script makes, may have at most.

/// The most bytes of a script.
pub const SCRIPT_BYTES_MAX: u32 = 67_108_864;

/// The most events that are ever accepted: puts, deletions and deletions of ranges.
pub const EVENTS_MAX: u32 = 1_000_000;

/// The most tables that are ever made.
pub const TABLES_MAX: u32 = 4_096;
