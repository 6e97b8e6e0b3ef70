//! What a command is refused by, and its line.
ghost use Rattle.std.specs.Prelude.{◌≡◌, ◌++◌, IfOk, OnErr, OnOk, string_bytes};
ghost use Rattle.reply_texts.specs.Texts.{backup_refusal_text, digest_text, digests_text, object_refusal_text, refusal_text};

use mvcc_keys::{Hlc, Memory, Text};
use std::alloc::{AllocError, Global};
use table_descriptors::Name;

/// What a command is refused by, with its fields. A refused command leaves all as it was.
#[derive(Drop)]
pub enum Refusal {
    /// The clock's counter can't rise as often as the command draws.
    ClockFull,
    TickBack {
        now: Hlc,
    },
    NoSuchDatabase {
        database: Name,
    },
    DatabaseExists {
        database: Name,
    },
    NoSuchTable {
        table: (Name, Name),
    },
    NameTaken {
        table: (Name, Name),
    },
    /// The table is Offline.
    NotPublic {
        table: (Name, Name),
    },
    /// The least number of a rule that the new table breaks.
    BadSchema {
        which: u8,
    },
    /// Row and place of the first value that doesn't fit, from 1; column 0: a wrong count of values.
    WrongRow {
        row: usize,
        column: usize,
    },
    /// The first row, from 1, whose key or value takes more bytes than it may.
    TooLarge {
        row: usize,
    },
    Future {
        now: Hlc,
    },
    /// The time is before the threshold of the table of this id.
    Collected {
        table: u32,
        threshold: Hlc,
    },
    /// The least id of another table that references the one to be dropped.
    Referenced {
        by: u32,
    },
    /// The row, from 1, whose key came earlier in the list.
    DuplicateKey {
        row: usize,
    },
    /// The collection has no such subdirectory.
    NoSuchBackup,
    /// The least id of a table whose threshold is after the start of its increment.
    StartCollected {
        table: u32,
        threshold: Hlc,
        start: Hlc,
    },
    /// A backup would end at or before the last one.
    EndNotAfter {
        end: Hlc,
        last: Hlc,
    },
    /// No layer covers the time: the least and the greatest end of those that are there.
    NotCovered {
        first: Hlc,
        last: Hlc,
    },
    /// The time is inside layers without history: the ends of layers next to it.
    NeedsHistory {
        below: Hlc,
        above: Hlc,
    },
    /// The time is below the floor of the history that covers it.
    HistoryCollected {
        floor: Hlc,
    },
    /// No chain of layers leads from the first moment to the time.
    Gap {
        reached: Hlc,
        wants: Hlc,
    },
    NothingToRestore,
    /// Ids of a chosen table and of one that it references, which isn't chosen.
    MissingReference {
        table: u32,
        referenced: u32,
    },
    /// The layer's gate is open over another manifest. The digests are SHA-256.
    LayerDiffers {
        object: Text,
        wanted: [u8; 32],
        found: Option<[u8; 32]>,
    },
    /// The chunk isn't the one that its manifest tells of.
    Damaged {
        object: Text,
        wanted: [u8; 32],
        found: Option<[u8; 32]>,
    },
    /// An object under an open gate breaks its grammar at this offset.
    Malformed {
        object: Text,
        offset: usize,
    },
    TooManyTables,
    TooManyEvents,
    /// The subdirectory has no layer of that start and end.
    NoSuchLayer,
    /// The first key of a range isn't before the second.
    EmptyRange,
}

fn digest_text(alloc: Global, digest: &Option<[u8; 32]>) -> Result<String, AllocError>
    ensures { IfOk result (λ s. string_bytes s ≡ digest_text digest.now) }
{
    match digest {
        Some(digest) => hex::encode(alloc, digest.as_slice()),
        None => format!(in alloc; "none"),
    }
}

fn digests_text(
    alloc: Global,
    wanted: &[u8; 32],
    found: &Option<[u8; 32]>,
) -> Result<String, AllocError>
    ensures { IfOk result (λ s. string_bytes s ≡ digests_text wanted.now found.now) }
{
    let wanted = hex::encode(alloc, wanted.as_slice())?;
    let found = digest_text(alloc, found)?;
    format!(in alloc; " wanted={wanted} found={found}\n")
}

/// The line of a refusal that tells of the digests of an object.
fn digests_line(
    alloc: Global,
    front: &str,
    object: &Text,
    wanted: &[u8; 32],
    found: &Option<[u8; 32]>,
) -> Result<String, AllocError>
    ensures { IfOk result (λ s. string_bytes s ≡ front.now ++ (object.now ++ digests_text wanted.now found.now)) }
{
    let object = object.as_str();
    let digests = digests_text(alloc, wanted, found)?;
    format!(in alloc; "{front}{object}{digests}")
}

/// The line of a refusal by an object of the disk, and nothing for another.
fn object_refusal_line(alloc: Global, refusal: &Refusal) -> Result<String, AllocError>
    ensures { IfOk result (λ s. string_bytes s ≡ object_refusal_text refusal.now) }
{
    match refusal {
        Refusal::LayerDiffers {
            object,
            wanted,
            found,
        } => digests_line(
            alloc,
            "refused 32 LayerDiffers object=",
            object,
            wanted,
            found,
        ),
        Refusal::Damaged {
            object,
            wanted,
            found,
        } => digests_line(alloc, "refused 33 Damaged object=", object, wanted, found),
        Refusal::Malformed { object, offset } => {
            let object = object.as_str();
            format!(in alloc; "refused 34 Malformed object={object} offset={offset}\n")
        }
        _ => format!(in alloc; ""),
    }
}

/// The line of a refusal of a backup, of a restore or by an object.
fn backup_refusal_line(alloc: Global, refusal: &Refusal) -> Result<String, AllocError>
    ensures { IfOk result (λ s. string_bytes s ≡ backup_refusal_text refusal.now) }
{
    match refusal {
        Refusal::NoSuchBackup => format!(in alloc; "refused 16 NoSuchBackup\n"),
        Refusal::StartCollected {
            table,
            threshold,
            start,
        } => {
            format!(in alloc;
                "refused 19 StartCollected table={table} threshold={threshold} start={start}\n"
            )
        }
        Refusal::EndNotAfter { end, last } => {
            format!(in alloc; "refused 20 EndNotAfter end={end} last={last}\n")
        }
        Refusal::NotCovered { first, last } => {
            format!(in alloc; "refused 21 NotCovered first={first} last={last}\n")
        }
        Refusal::NeedsHistory { below, above } => {
            format!(in alloc; "refused 22 NeedsHistory below={below} above={above}\n")
        }
        Refusal::HistoryCollected { floor } => {
            format!(in alloc; "refused 23 HistoryCollected floor={floor}\n")
        }
        Refusal::Gap { reached, wants } => {
            format!(in alloc; "refused 24 Gap reached={reached} wants={wants}\n")
        }
        Refusal::NothingToRestore => format!(in alloc; "refused 25 NothingToRestore\n"),
        Refusal::MissingReference { table, referenced } => {
            format!(in alloc; "refused 26 MissingReference table={table} referenced={referenced}\n")
        }
        Refusal::TooManyTables => format!(in alloc; "refused 35 TooManyTables\n"),
        Refusal::TooManyEvents => format!(in alloc; "refused 36 TooManyEvents\n"),
        Refusal::NoSuchLayer => format!(in alloc; "refused 37 NoSuchLayer\n"),
        _ => object_refusal_line(alloc, refusal),
    }
}

fn refusal_line(alloc: Global, refusal: &Refusal) -> Result<String, AllocError>
    ensures { IfOk result (λ s. string_bytes s ≡ refusal_text refusal.now) }
{
    match refusal {
        Refusal::ClockFull => format!(in alloc; "refused 1 ClockFull\n"),
        Refusal::TickBack { now } => format!(in alloc; "refused 2 TickBack now={now}\n"),
        Refusal::NoSuchDatabase { database } => {
            format!(in alloc; "refused 3 NoSuchDatabase database={database}\n")
        }
        Refusal::DatabaseExists { database } => {
            format!(in alloc; "refused 4 DatabaseExists database={database}\n")
        }
        Refusal::NoSuchTable {
            table: (database, name),
        } => { format!(in alloc; "refused 5 NoSuchTable table={database}.{name}\n") }
        Refusal::NameTaken {
            table: (database, name),
        } => { format!(in alloc; "refused 6 NameTaken table={database}.{name}\n") }
        Refusal::NotPublic {
            table: (database, name),
        } => { format!(in alloc; "refused 7 NotPublic table={database}.{name}\n") }
        Refusal::BadSchema { which } => format!(in alloc; "refused 8 BadSchema which={which}\n"),
        Refusal::WrongRow { row, column } => {
            format!(in alloc; "refused 9 WrongRow row={row} column={column}\n")
        }
        Refusal::TooLarge { row } => format!(in alloc; "refused 10 TooLarge row={row}\n"),
        Refusal::Future { now } => format!(in alloc; "refused 11 Future now={now}\n"),
        Refusal::Collected { table, threshold } => {
            format!(in alloc; "refused 12 Collected table={table} threshold={threshold}\n")
        }
        Refusal::Referenced { by } => format!(in alloc; "refused 14 Referenced by={by}\n"),
        Refusal::DuplicateKey { row } => format!(in alloc; "refused 15 DuplicateKey row={row}\n"),
        Refusal::EmptyRange => format!(in alloc; "refused 38 EmptyRange\n"),
        _ => backup_refusal_line(alloc, refusal),
    }
}

/// Appends the line of a refusal.
pub fn put_refusal(refusal: &Refusal, out: &mut Vec<u8>) -> Result<(), Memory>
    ensures appended { OnOk result (out.new.items ≡ out.old.items ++ refusal_text refusal.now) }
    ensures kept { OnErr result (out.new.items ≡ out.old.items) }
{
    let alloc = *out.allocator();
    let Ok(line) = refusal_line(alloc, refusal) else {
        return Err(Memory);
    };
    out.extend_from_slice(line.as_bytes()).map_err(|_| Memory)
}
