//! Commands as texts: the name of the variant and its fields in words. Of a field that is true or
//! false its name stands there, or nothing.
use command_lang::{Command, Src, Tbl};
use mvcc_keys::{Hlc, Memory};
use row_codec::{Datum, Kind, Row};
use std::alloc::Global;
use table_descriptors::Name;

fn put_table(table: &Tbl, out: &mut String) -> Result<(), Memory> {
    let (database, name) = table;
    Ok(write!(out, " {database}.{name}")?)
}

fn put_tables(tables: &[Tbl], out: &mut String) -> Result<(), Memory> {
    for table in tables {
        put_table(table, out)?;
    }
    Ok(())
}

fn kind_text(kind: Kind) -> &'static str {
    match kind {
        Kind::Int => "INT",
        Kind::Text => "STRING",
        Kind::Bytes => "BYTES",
        Kind::Bool => "BOOL",
        _ => "?",
    }
}

fn put_columns(columns: &[(Name, Kind)], out: &mut String) -> Result<(), Memory> {
    for (name, kind) in columns {
        let kind = kind_text(*kind);
        write!(out, " {name}:{kind}")?;
    }
    Ok(())
}

fn put_key(key: &[(Name, bool)], out: &mut String) -> Result<(), Memory> {
    out.push_str(" key")?;
    for (name, descends) in key {
        let sign = if *descends { '-' } else { '+' };
        write!(out, " {sign}{name}")?;
    }
    Ok(())
}

/// A character, or a control character as its number in hexadecimal digits after `\x`.
fn put_character(character: char, out: &mut String) -> Result<(), Memory> {
    let number = u32::from(character);
    if number < 32 || number == 127 {
        return Ok(write!(out, "\\x{number:02x}")?);
    }
    Ok(out.push(character)?)
}

fn put_text(text: &str, out: &mut String) -> Result<(), Memory> {
    out.push_str(" [")?;
    for character in text.chars() {
        put_character(character, out)?;
    }
    Ok(out.push(']')?)
}

fn put_bytes(bytes: &[u8], out: &mut String) -> Result<(), Memory> {
    for byte in bytes {
        write!(out, "{byte:02x}")?;
    }
    Ok(())
}

fn put_datum(datum: &Datum, out: &mut String) -> Result<(), Memory> {
    match datum {
        Datum::Int(n) => Ok(write!(out, " {n}")?),
        Datum::Text(text) => put_text(text.as_str(), out),
        Datum::Bytes(bytes) => {
            out.push_str(" x")?;
            put_bytes(bytes.as_slice(), out)
        }
        Datum::Bool(truth) => Ok(write!(out, " {truth}")?),
        Datum::Null => Ok(out.push_str(" null")?),
    }
}

/// A row as `( 5 [it's] x00ff true null )`.
fn put_row(row: &Row, out: &mut String) -> Result<(), Memory> {
    out.push_str(" (")?;
    for datum in row.as_slice() {
        put_datum(datum, out)?;
    }
    Ok(out.push_str(" )")?)
}

fn put_rows(rows: &[Row], out: &mut String) -> Result<(), Memory> {
    for row in rows {
        put_row(row, out)?;
    }
    Ok(())
}

fn put_time(time: &Option<Hlc>, out: &mut String) -> Result<(), Memory> {
    match time {
        Some(time) => Ok(write!(out, " at {time}")?),
        None => Ok(()),
    }
}

fn put_history(history: bool, out: &mut String) -> Result<(), Memory> {
    if history {
        out.push_str(" history")?;
    }
    Ok(())
}

fn put_source(source: &Src, out: &mut String) -> Result<(), Memory> {
    match source {
        Src::Latest => Ok(out.push_str(" latest")?),
        Src::Named { cluster, full } => Ok(write!(out, " {cluster}/{full}")?),
    }
}

fn put_new_name(name: &Option<Name>, out: &mut String) -> Result<(), Memory> {
    match name {
        Some(name) => Ok(write!(out, " as {name}")?),
        None => Ok(()),
    }
}

// ---- commands: each form is one call, since a way out of a large match is dear

fn put_word(word: &str, name: &Name, out: &mut String) -> Result<(), Memory> {
    Ok(write!(out, "{word} {name}")?)
}

/// The word of a command on a table, and a text.
fn put_change(word: &str, table: &Tbl, rest: &str, out: &mut String) -> Result<(), Memory> {
    out.push_str(word)?;
    put_table(table, out)?;
    Ok(out.push_str(rest)?)
}

fn put_with_name(word: &str, table: &Tbl, name: &Name, out: &mut String) -> Result<(), Memory> {
    put_change(word, table, " ", out)?;
    Ok(out.push_str(name.as_str())?)
}

fn put_rename_column(table: &Tbl, name: &Name, to: &Name, out: &mut String) -> Result<(), Memory> {
    put_with_name("RenameColumn", table, name, out)?;
    put_word(" to", to, out)
}

fn put_add_column(table: &Tbl, name: &Name, kind: Kind, out: &mut String) -> Result<(), Memory> {
    put_with_name("AddColumn", table, name, out)?;
    out.push(':')?;
    Ok(out.push_str(kind_text(kind))?)
}

fn put_new_table(
    table: &Tbl,
    columns: &[(Name, Kind)],
    key: &[(Name, bool)],
    references: &[Tbl],
    out: &mut String,
) -> Result<(), Memory> {
    put_change("CreateTable", table, "", out)?;
    put_columns(columns, out)?;
    put_key(key, out)?;
    out.push_str(" references")?;
    put_tables(references, out)
}

fn put_with_rows(word: &str, table: &Tbl, rows: &[Row], out: &mut String) -> Result<(), Memory> {
    put_change(word, table, "", out)?;
    put_rows(rows, out)
}

fn put_range(table: &Tbl, lo: &Row, hi: &Row, out: &mut String) -> Result<(), Memory> {
    put_change("DeleteRange", table, "", out)?;
    put_row(lo, out)?;
    put_row(hi, out)
}

fn put_at(word: &str, table: &Tbl, at: &Option<Hlc>, out: &mut String) -> Result<(), Memory> {
    put_change(word, table, "", out)?;
    put_time(at, out)
}

fn put_gc(table: &Tbl, before: Hlc, out: &mut String) -> Result<(), Memory> {
    put_change("Gc", table, "", out)?;
    Ok(write!(out, " before {before}")?)
}

fn put_destination(
    word: &str,
    collection: &Name,
    at: &Option<Hlc>,
    history: bool,
    out: &mut String,
) -> Result<(), Memory> {
    put_word(word, collection, out)?;
    put_time(at, out)?;
    put_history(history, out)
}

fn put_backup_database(
    database: &Name,
    collection: &Name,
    at: &Option<Hlc>,
    history: bool,
    out: &mut String,
) -> Result<(), Memory> {
    put_word("BackupDatabase", database, out)?;
    put_destination(" into", collection, at, history, out)
}

fn put_backup_tables(
    tables: &[Tbl],
    collection: &Name,
    at: &Option<Hlc>,
    history: bool,
    out: &mut String,
) -> Result<(), Memory> {
    out.push_str("BackupTables")?;
    put_tables(tables, out)?;
    put_destination(" into", collection, at, history, out)
}

fn put_backup_source(source: &Src, collection: &Name, out: &mut String) -> Result<(), Memory> {
    put_source(source, out)?;
    put_word(" in", collection, out)
}

fn put_restore(
    database: &Name,
    (source, collection): (&Src, &Name),
    at: &Option<Hlc>,
    new_name: &Option<Name>,
    out: &mut String,
) -> Result<(), Memory> {
    put_word("RestoreDatabase", database, out)?;
    out.push_str(" from")?;
    put_backup_source(source, collection, out)?;
    put_time(at, out)?;
    put_new_name(new_name, out)
}

fn put_forget(
    (source, collection): (&Src, &Name),
    start: Hlc,
    end: Hlc,
    out: &mut String,
) -> Result<(), Memory> {
    out.push_str("Forget")?;
    put_backup_source(source, collection, out)?;
    Ok(write!(out, " from {start} to {end}")?)
}

/// Appends a command.
pub fn put_command(command: &Command, out: &mut String) -> Result<(), Memory> {
    match command {
        Command::Cluster { name } => put_word("Cluster", name, out),
        Command::Tick { wall } => Ok(write!(out, "Tick {wall}")?),
        Command::CreateDatabase { name } => put_word("CreateDatabase", name, out),
        Command::CreateTable {
            table,
            columns,
            key,
            references,
        } => put_new_table(
            table,
            columns.as_slice(),
            key.as_slice(),
            references.as_slice(),
            out,
        ),
        Command::AddColumn { table, name, kind } => put_add_column(table, name, *kind, out),
        Command::DropColumn { table, name } => put_with_name("DropColumn", table, name, out),
        Command::RenameColumn { table, name, to } => put_rename_column(table, name, to, out),
        Command::RenameTable { table, to } => put_with_name("RenameTable", table, to, out),
        Command::DropTable { table } => put_change("DropTable", table, "", out),
        Command::Upsert { table, rows } => put_with_rows("Upsert", table, rows.as_slice(), out),
        Command::Delete { table, keys } => put_with_rows("Delete", table, keys.as_slice(), out),
        Command::DeleteRange { table, lo, hi } => put_range(table, lo, hi, out),
        Command::Select { table, at } => put_at("Select", table, at, out),
        Command::Gc { table, before } => put_gc(table, *before, out),
        Command::BackupDatabase {
            database,
            collection,
            at,
            history,
        } => put_backup_database(database, collection, at, *history, out),
        Command::BackupTables {
            tables,
            collection,
            at,
            history,
        } => put_backup_tables(tables.as_slice(), collection, at, *history, out),
        Command::BackupLatest {
            collection,
            at,
            history,
        } => put_destination("BackupLatest in", collection, at, *history, out),
        Command::RestoreDatabase {
            database,
            source,
            collection,
            at,
            new_name,
        } => put_restore(database, (source, collection), at, new_name, out),
        Command::Forget {
            source,
            collection,
            start,
            end,
        } => put_forget((source, collection), *start, *end, out),
        Command::ShowBackups { collection } => put_word("ShowBackups in", collection, out),
    }
}
