//! What a command that isn't refused is answered, and its lines.
ghost use Rattle.std.specs.Prelude.{◌≡◌, ◌++◌, IfOk, OnErr, OnOk, string_bytes};
ghost use Rattle.reply_texts.specs.Texts.{first_line, more_lines, answer_text};

use crate::backups::{chain_text, layer_text, put_subdirectories, put_tables};
use crate::rows::put_rows;
use mvcc_keys::{Hlc, Items, Memory};
use row_codec::Row;
use std::alloc::{AllocError, Global};
use table_descriptors::Name;

/// A table that a restore made: its id in the backup, its id now, and its database and name now.
#[derive(Drop)]
pub struct RestoredTable {
    pub old: u32,
    pub new: u32,
    pub table: (Name, Name),
}

/// What a command that isn't refused is answered: one variant for each form of line.
#[derive(Drop)]
pub enum Answer {
    /// CLUSTER is answered by no line.
    Nothing,
    Plain,
    ClockSet {
        now: Hlc,
    },
    TableMade {
        table: u32,
        at: Hlc,
    },
    TableChanged {
        table: u32,
        version: u32,
        at: Hlc,
    },
    RowsWritten {
        rows: usize,
        at: Hlc,
    },
    RangeDeleted {
        at: Hlc,
    },
    ThresholdRaised {
        threshold: Hlc,
    },
    RowsShown {
        rows: Items<Row>,
    },
    /// A backup is done. Its layer goes from a start to an end, in the subdirectory of a cluster
    /// and the end of its full backup.
    BackupDone {
        job: u32,
        cluster: Name,
        full: Hlc,
        start: Hlc,
        end: Hlc,
        entries: u64,
        chunks: u32,
    },
    /// A restore of a time is done, with rows dated `at`, over a chain of layers from starts to
    /// ends.
    RestoreDone {
        job: u32,
        time: Hlc,
        at: Hlc,
        rows: u64,
        chain: Items<(Hlc, Hlc)>,
        tables: Items<RestoredTable>,
    },
    /// The subdirectories of a collection, each a cluster and a time.
    BackupsShown {
        subdirectories: Items<(Name, Hlc)>,
    },
}

/// The one line of an answer, and the first where others follow.
fn first_line(alloc: Global, answer: &Answer) -> Result<String, AllocError>
    ensures { IfOk result (λ s. string_bytes s ≡ first_line answer.now) }
{
    match answer {
        Answer::Nothing => format!(in alloc; ""),
        Answer::Plain => format!(in alloc; "ok\n"),
        Answer::ClockSet { now } => format!(in alloc; "ok now={now}\n"),
        Answer::TableMade { table, at } => format!(in alloc; "ok table={table} at={at}\n"),
        Answer::TableChanged { table, version, at } => {
            format!(in alloc; "ok table={table} version={version} at={at}\n")
        }
        Answer::RowsWritten { rows, at } => format!(in alloc; "ok rows={rows} at={at}\n"),
        Answer::RangeDeleted { at } => format!(in alloc; "ok at={at}\n"),
        Answer::ThresholdRaised { threshold } => { format!(in alloc; "ok threshold={threshold}\n") }
        Answer::RowsShown { rows } => {
            let count = rows.as_slice().len();
            format!(in alloc; "ok rows={count}\n")
        }
        Answer::BackupDone {
            job,
            cluster,
            full,
            start,
            end,
            entries,
            chunks,
        } => {
            let layer = layer_text(alloc, cluster, full, start, end)?;
            format!(in alloc;
                "ok job={job} state=done layer={layer} entries={entries} chunks={chunks}\n"
            )
        }
        Answer::RestoreDone {
            job,
            time,
            at,
            rows,
            chain,
            ..
        } => {
            let chain = chain_text(alloc, chain.as_slice())?;
            format!(in alloc;
                "ok job={job} state=done time={time} at={at} rows={rows} chain={chain}\n"
            )
        }
        Answer::BackupsShown { subdirectories } => {
            let count = subdirectories.as_slice().len();
            format!(in alloc; "ok backups={count}\n")
        }
    }
}

/// Appends the lines that follow the first.
fn put_more_lines(answer: &Answer, text: &mut Vec<u8>) -> Result<(), Memory>
    ensures { OnOk result (text.new.items ≡ text.old.items ++ more_lines answer.now) }
{
    match answer {
        Answer::RowsShown { rows } => put_rows(rows.as_slice(), text),
        Answer::RestoreDone { tables, .. } => put_tables(tables.as_slice(), text),
        Answer::BackupsShown { subdirectories } => {
            put_subdirectories(subdirectories.as_slice(), text)
        }
        _ => Ok(()),
    }
}

/// The lines of an answer.
fn answer_lines(alloc: Global, answer: &Answer) -> Result<Vec<u8>, Memory>
    ensures { IfOk result (λ v. v.items ≡ answer_text answer.now) }
{
    let line = first_line(alloc, answer)?;
    let mut text = Vec::from_slice(alloc, line.as_bytes())?;
    put_more_lines(answer, &mut text)?;
    Ok(text)
}

/// Appends the lines of an answer.
pub fn put_answer(answer: &Answer, out: &mut Vec<u8>) -> Result<(), Memory>
    ensures appended { OnOk result (out.new.items ≡ out.old.items ++ answer_text answer.now) }
    ensures kept { OnErr result (out.new.items ≡ out.old.items) }
{
    let alloc = *out.allocator();
    let Ok(text) = answer_lines(alloc, answer) else {
        return Err(Memory);
    };
    out.extend_from_slice(&text).map_err(|_| Memory)
}
