//! The forms of backups and restores, and the commands that they make.
ghost use Rattle.std.specs.Prelude.{◌≡◌, []};
ghost use Rattle.script_grammar.specs.Grammar.{Gives, ◌making◌};
ghost use Rattle.command_lang.specs.declared.command.Command.TheVariants.{BackupDatabase, BackupTables, BackupLatest, RestoreDatabase, Forget, ShowBackups};
ghost use Rattle.command_lang.specs.Forms.{backup_database, backup_tables, backup_latest, restore_with, restore_at, restore_database, forget_to, forget_layer, forget, show_backups, layer_command};

use crate::{Command, Tbl};
use mvcc_keys::{Hlc, Items};
use script_grammar::{
    BackupOptions, Broken, Src, Token, asof, backup_clauses, collection, ending, farthest, name,
    restore_options, source_in, tables, time, word,
};
use std::alloc::Global;
use table_descriptors::Name;

/// A database, the collection of its backup, a time and options.
type DatabaseIn = (Name, Name, Option<Hlc>, BackupOptions);

#[tactic(auto, unfolding(crate::specs::Forms::backup_database))]
fn backup_database(alloc: Global, tokens: &[Token]) -> Result<DatabaseIn, Broken>
    ensures { Gives (λ x. x) (λ x. []) result (backup_database.read tokens.now) }
{
    let rest = word(b"backup", tokens)?;
    let rest = word(b"database", rest)?;
    let (database, rest) = name(alloc, rest)?;
    let rest = word(b"into", rest)?;
    let (collection, rest) = collection(alloc, rest)?;
    match backup_clauses(alloc, rest) {
        Ok(((at, options), rest)) => ending((database, collection, at, options), rest),
        Err(broken) => Err(broken),
    }
}

/// The tables of a backup, its collection, a time and options.
type TablesIn = (Items<Tbl>, Name, Option<Hlc>, BackupOptions);

#[tactic(auto, unfolding(crate::specs::Forms::backup_tables))]
fn backup_tables(alloc: Global, tokens: &[Token]) -> Result<TablesIn, Broken>
    ensures { Gives (λ x. x) (λ x. []) result (backup_tables.read tokens.now) }
{
    let rest = word(b"backup", tokens)?;
    let rest = word(b"table", rest)?;
    let (tables, rest) = tables(alloc, rest)?;
    let rest = word(b"into", rest)?;
    let (collection, rest) = collection(alloc, rest)?;
    match backup_clauses(alloc, rest) {
        Ok(((at, options), rest)) => ending((tables, collection, at, options), rest),
        Err(broken) => Err(broken),
    }
}

/// The collection of a further layer, a time and options.
type LayerIn = (Name, Option<Hlc>, BackupOptions);

#[tactic(auto, unfolding(crate::specs::Forms::backup_latest))]
fn backup_latest(alloc: Global, tokens: &[Token]) -> Result<LayerIn, Broken>
    ensures { Gives (λ x. x) (λ x. []) result (backup_latest.read tokens.now) }
{
    let rest = word(b"backup", tokens)?;
    let rest = word(b"into", rest)?;
    let rest = word(b"latest", rest)?;
    let rest = word(b"in", rest)?;
    let (collection, rest) = collection(alloc, rest)?;
    match backup_clauses(alloc, rest) {
        Ok(((at, options), rest)) => ending((collection, at, options), rest),
        Err(broken) => Err(broken),
    }
}

/// A database, a backup and its collection, a time, and the new name of the database.
type Restored = (Name, Src, Name, Option<Hlc>, Option<Name>);

fn restore_with(
    alloc: Global,
    database: Name,
    source: Src,
    collection: Name,
    at: Option<Hlc>,
    tokens: &[Token],
) -> Result<Restored, Broken>
    ensures { Gives (λ x. x) (λ x. []) result ((restore_with database source collection at).read tokens.now) }
{
    match restore_options(alloc, tokens) {
        Ok((new_name, rest)) => ending((database, source, collection, at, new_name), rest),
        Err(broken) => Err(broken),
    }
}

fn restore_at(
    alloc: Global,
    database: Name,
    source: Src,
    collection: Name,
    tokens: &[Token],
) -> Result<Restored, Broken>
    ensures { Gives (λ x. x) (λ x. []) result ((restore_at database source collection).read tokens.now) }
{
    match asof(tokens) {
        Ok((at, rest)) => restore_with(alloc, database, source, collection, at, rest),
        Err(broken) => Err(broken),
    }
}

#[tactic(auto, unfolding(crate::specs::Forms::restore_database))]
fn restore_database(alloc: Global, tokens: &[Token]) -> Result<Restored, Broken>
    ensures { Gives (λ x. x) (λ x. []) result (restore_database.read tokens.now) }
{
    let rest = word(b"restore", tokens)?;
    let rest = word(b"database", rest)?;
    let (database, rest) = name(alloc, rest)?;
    let rest = word(b"from", rest)?;
    match source_in(alloc, rest) {
        Ok(((source, collection), rest)) => restore_at(alloc, database, source, collection, rest),
        Err(broken) => Err(broken),
    }
}

/// A backup and its collection, and the start and the end of a layer.
type Layer = (Src, Name, Hlc, Hlc);

fn forget_to(source: Src, collection: Name, start: Hlc, tokens: &[Token]) -> Result<Layer, Broken>
    ensures { Gives (λ x. x) (λ x. []) result ((forget_to source collection start).read tokens.now) }
{
    let rest = word(b"to", tokens)?;
    match time(rest) {
        Ok((end, rest)) => ending((source, collection, start, end), rest),
        Err(broken) => Err(broken),
    }
}

fn forget_layer(source: Src, collection: Name, tokens: &[Token]) -> Result<Layer, Broken>
    ensures { Gives (λ x. x) (λ x. []) result ((forget_layer source collection).read tokens.now) }
{
    let rest = word(b"layer", tokens)?;
    match time(rest) {
        Ok((start, rest)) => forget_to(source, collection, start, rest),
        Err(broken) => Err(broken),
    }
}

#[tactic(auto, unfolding(crate::specs::Forms::forget))]
fn forget(alloc: Global, tokens: &[Token]) -> Result<Layer, Broken>
    ensures { Gives (λ x. x) (λ x. []) result (forget.read tokens.now) }
{
    let rest = word(b"forget", tokens)?;
    let rest = word(b"backup", rest)?;
    let rest = word(b"from", rest)?;
    match source_in(alloc, rest) {
        Ok(((source, collection), rest)) => forget_layer(source, collection, rest),
        Err(broken) => Err(broken),
    }
}

#[tactic(auto, unfolding(crate::specs::Forms::show_backups))]
fn show_backups(alloc: Global, tokens: &[Token]) -> Result<Name, Broken>
    ensures { Gives (λ x. x) (λ x. []) result (show_backups.read tokens.now) }
{
    let rest = word(b"show", tokens)?;
    let rest = word(b"backups", rest)?;
    let rest = word(b"in", rest)?;
    let (collection, rest) = collection(alloc, rest)?;
    ending(collection, rest)
}

fn backup_database_command(alloc: Global, tokens: &[Token]) -> Result<Command, Broken>
    ensures { Gives (λ x. x) (λ x. []) result ((backup_database making (λ x. BackupDatabase x.0 x.1 x.2 x.3.history)).read tokens.now) }
{
    let (database, collection, at, options) = backup_database(alloc, tokens)?;
    Ok(Command::BackupDatabase {
        database,
        collection,
        at,
        history: options.history,
    })
}

fn backup_tables_command(alloc: Global, tokens: &[Token]) -> Result<Command, Broken>
    ensures { Gives (λ x. x) (λ x. []) result ((backup_tables making (λ x. BackupTables x.0 x.1 x.2 x.3.history)).read tokens.now) }
{
    let (tables, collection, at, options) = backup_tables(alloc, tokens)?;
    Ok(Command::BackupTables {
        tables,
        collection,
        at,
        history: options.history,
    })
}

fn backup_latest_command(alloc: Global, tokens: &[Token]) -> Result<Command, Broken>
    ensures { Gives (λ x. x) (λ x. []) result ((backup_latest making (λ x. BackupLatest x.0 x.1 x.2.history)).read tokens.now) }
{
    let (collection, at, options) = backup_latest(alloc, tokens)?;
    Ok(Command::BackupLatest {
        collection,
        at,
        history: options.history,
    })
}

fn restore_database_command(alloc: Global, tokens: &[Token]) -> Result<Command, Broken>
    ensures { Gives (λ x. x) (λ x. []) result ((restore_database making (λ x. RestoreDatabase x.0 x.1 x.2 x.3 x.4)).read tokens.now) }
{
    match restore_database(alloc, tokens) {
        Ok((database, source, collection, at, new_name)) => Ok(Command::RestoreDatabase {
            database,
            source,
            collection,
            at,
            new_name,
        }),
        Err(broken) => Err(broken),
    }
}

fn forget_command(alloc: Global, tokens: &[Token]) -> Result<Command, Broken>
    ensures { Gives (λ x. x) (λ x. []) result ((forget making (λ x. Forget x.0 x.1 x.2 x.3)).read tokens.now) }
{
    match forget(alloc, tokens) {
        Ok((source, collection, start, end)) => Ok(Command::Forget {
            source,
            collection,
            start,
            end,
        }),
        Err(broken) => Err(broken),
    }
}

fn show_backups_command(alloc: Global, tokens: &[Token]) -> Result<Command, Broken>
    ensures { Gives (λ x. x) (λ x. []) result ((show_backups making ShowBackups).read tokens.now) }
{
    let collection = show_backups(alloc, tokens)?;
    Ok(Command::ShowBackups { collection })
}

#[tactic(auto, unfolding(crate::specs::Forms::layer_command))]
pub(crate) fn layer_command(alloc: Global, tokens: &[Token]) -> Result<Command, Broken>
    ensures { Gives (λ x. x) (λ x. []) result (layer_command.read tokens.now) }
{
    let found = farthest(
        backup_database_command(alloc, tokens),
        backup_tables_command(alloc, tokens),
    );
    let found = farthest(found, backup_latest_command(alloc, tokens));
    let found = farthest(found, restore_database_command(alloc, tokens));
    let found = farthest(found, forget_command(alloc, tokens));
    farthest(found, show_backups_command(alloc, tokens))
}
