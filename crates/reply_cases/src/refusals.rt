//! Refusals by their names and fields, after the word `refused`.
use crate::fields::{count, digest, digest_or_none, field, id, name, size, table, text, time};
use mvcc_keys::Memory;
use reply_texts::Refusal;
use std::alloc::Global;

fn without_fields(name: &str) -> Option<Refusal> {
    match name {
        "ClockFull" => Some(Refusal::ClockFull),
        "NoSuchBackup" => Some(Refusal::NoSuchBackup),
        "NothingToRestore" => Some(Refusal::NothingToRestore),
        "TooManyTables" => Some(Refusal::TooManyTables),
        "TooManyEvents" => Some(Refusal::TooManyEvents),
        "NoSuchLayer" => Some(Refusal::NoSuchLayer),
        "EmptyRange" => Some(Refusal::EmptyRange),
        _ => None,
    }
}

fn of_one_time(line: &str) -> Option<Refusal> {
    let now = time(line, 2);
    match field(line, 1) {
        "TickBack" => Some(Refusal::TickBack { now }),
        "Future" => Some(Refusal::Future { now }),
        _ => Some(Refusal::HistoryCollected { floor: now }),
    }
}

fn of_two_times(line: &str) -> Option<Refusal> {
    let first = time(line, 2);
    let last = time(line, 3);
    match field(line, 1) {
        "EndNotAfter" => Some(Refusal::EndNotAfter { end: first, last }),
        "NotCovered" => Some(Refusal::NotCovered { first, last }),
        "NeedsHistory" => Some(Refusal::NeedsHistory {
            below: first,
            above: last,
        }),
        _ => Some(Refusal::Gap {
            reached: first,
            wants: last,
        }),
    }
}

fn of_threshold(line: &str) -> Option<Refusal> {
    let table = id(line, 2);
    let threshold = time(line, 3);
    match field(line, 1) {
        "Collected" => Some(Refusal::Collected { table, threshold }),
        _ => Some(Refusal::StartCollected {
            table,
            threshold,
            start: time(line, 4),
        }),
    }
}

fn of_numbers(line: &str) -> Option<Refusal> {
    let number = size(line, 2);
    match field(line, 1) {
        "BadSchema" => Some(Refusal::BadSchema {
            which: u8::try_from(count(line, 2)).unwrap_or(0),
        }),
        "WrongRow" => Some(Refusal::WrongRow {
            row: number,
            column: size(line, 3),
        }),
        "TooLarge" => Some(Refusal::TooLarge { row: number }),
        "DuplicateKey" => Some(Refusal::DuplicateKey { row: number }),
        "Referenced" => Some(Refusal::Referenced { by: id(line, 2) }),
        _ => Some(Refusal::MissingReference {
            table: id(line, 2),
            referenced: id(line, 3),
        }),
    }
}

fn of_database(alloc: Global, line: &str) -> Result<Option<Refusal>, Memory> {
    let Some(database) = name(alloc, line, 2)? else {
        return Ok(None);
    };
    Ok(match field(line, 1) {
        "NoSuchDatabase" => Some(Refusal::NoSuchDatabase { database }),
        _ => Some(Refusal::DatabaseExists { database }),
    })
}

fn of_table(alloc: Global, line: &str) -> Result<Option<Refusal>, Memory> {
    let Some(table) = table(alloc, line, 2)? else {
        return Ok(None);
    };
    Ok(match field(line, 1) {
        "NoSuchTable" => Some(Refusal::NoSuchTable { table }),
        "NameTaken" => Some(Refusal::NameTaken { table }),
        _ => Some(Refusal::NotPublic { table }),
    })
}

fn of_object(alloc: Global, line: &str) -> Result<Option<Refusal>, Memory> {
    let object = text(alloc, line, 2)?;
    Ok(match field(line, 1) {
        "LayerDiffers" => Some(Refusal::LayerDiffers {
            object,
            wanted: digest(line, 3),
            found: digest_or_none(line, 4),
        }),
        "Damaged" => Some(Refusal::Damaged {
            object,
            wanted: digest(line, 3),
            found: digest_or_none(line, 4),
        }),
        _ => Some(Refusal::Malformed {
            object,
            offset: size(line, 3),
        }),
    })
}

/// The refusal of a line.
pub fn refusal(alloc: Global, line: &str) -> Result<Option<Refusal>, Memory> {
    match field(line, 1) {
        "TickBack" | "Future" | "HistoryCollected" => Ok(of_one_time(line)),
        "EndNotAfter" | "NotCovered" | "NeedsHistory" | "Gap" => Ok(of_two_times(line)),
        "Collected" | "StartCollected" => Ok(of_threshold(line)),
        "BadSchema" | "WrongRow" | "TooLarge" => Ok(of_numbers(line)),
        "DuplicateKey" | "Referenced" | "MissingReference" => Ok(of_numbers(line)),
        "NoSuchDatabase" | "DatabaseExists" => of_database(alloc, line),
        "NoSuchTable" | "NameTaken" | "NotPublic" => of_table(alloc, line),
        "LayerDiffers" | "Damaged" | "Malformed" => of_object(alloc, line),
        name => Ok(without_fields(name)),
    }
}
