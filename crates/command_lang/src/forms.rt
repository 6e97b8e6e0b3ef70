//! The forms of commands, and the commands that they make.
ghost use Rattle.std.specs.Prelude.{◌≡◌, []};
ghost use Rattle.script_grammar.specs.Grammar.{Gives, ◌making◌};
ghost use Rattle.command_lang.specs.declared.command.Command.TheVariants.{Cluster, Tick, CreateDatabase, CreateTable, AddColumn, DropColumn, RenameColumn, RenameTable, DropTable, Upsert, Delete, DeleteRange, Select, Gc};
ghost use Rattle.command_lang.specs.Forms.{cluster, tick, create_database, create_table, drop_table, add_column, drop_column, rename_column, rename_table, upsert, delete, delete_range, select, gc, schema_command, alter_command, row_command, layer_command, command};

use crate::layer_forms::layer_command;
use crate::{Command, Tbl};
use mvcc_keys::{Hlc, Items};
use row_codec::{Kind, Row};
use script_grammar::{
    Broken, Token, asof, columns, count, ending, farthest, key, kind, mark, name, new_name,
    references, row, rows, table, time, word,
};
use std::alloc::Global;
use table_descriptors::{KeyNames, Name};

#[tactic(auto, unfolding(crate::specs::Forms::cluster))]
fn cluster(alloc: Global, tokens: &[Token]) -> Result<Name, Broken>
    ensures { Gives (λ x. x) (λ x. []) result (cluster.read tokens.now) }
{
    let rest = word(b"cluster", tokens)?;
    let (name, rest) = name(alloc, rest)?;
    ending(name, rest)
}

#[tactic(auto, unfolding(crate::specs::Forms::tick))]
fn tick(tokens: &[Token]) -> Result<u64, Broken>
    ensures { Gives (λ x. x) (λ x. []) result (tick.read tokens.now) }
{
    let rest = word(b"tick", tokens)?;
    let (wall, rest) = count(rest)?;
    ending(wall, rest)
}

#[tactic(auto, unfolding(crate::specs::Forms::create_database))]
fn create_database(alloc: Global, tokens: &[Token]) -> Result<Name, Broken>
    ensures { Gives (λ x. x) (λ x. []) result (create_database.read tokens.now) }
{
    let rest = word(b"create", tokens)?;
    let rest = word(b"database", rest)?;
    let (name, rest) = name(alloc, rest)?;
    ending(name, rest)
}

/// A new table with its columns, its key and the tables that it references.
type NewTable = (Tbl, Items<(Name, Kind)>, KeyNames, Items<Tbl>);

#[tactic(auto, unfolding(crate::specs::Forms::create_table))]
fn create_table(alloc: Global, tokens: &[Token]) -> Result<NewTable, Broken>
    ensures { Gives (λ x. x) (λ x. []) result (create_table.read tokens.now) }
{
    let rest = word(b"create", tokens)?;
    let rest = word(b"table", rest)?;
    let (table, rest) = table(alloc, rest)?;
    let rest = mark(b'(', rest)?;
    let (columns, rest) = columns(alloc, rest)?;
    let (key, rest) = key(alloc, rest)?;
    let (references, rest) = references(alloc, rest)?;
    let rest = mark(b')', rest)?;
    ending((table, columns, key, references), rest)
}

#[tactic(auto, unfolding(crate::specs::Forms::drop_table))]
fn drop_table(alloc: Global, tokens: &[Token]) -> Result<Tbl, Broken>
    ensures { Gives (λ x. x) (λ x. []) result (drop_table.read tokens.now) }
{
    let rest = word(b"drop", tokens)?;
    let rest = word(b"table", rest)?;
    let (table, rest) = table(alloc, rest)?;
    ending(table, rest)
}

#[tactic(auto, unfolding(crate::specs::Forms::add_column))]
fn add_column(alloc: Global, tokens: &[Token]) -> Result<(Tbl, Name, Kind), Broken>
    ensures { Gives (λ x. x) (λ x. []) result (add_column.read tokens.now) }
{
    let rest = word(b"alter", tokens)?;
    let rest = word(b"table", rest)?;
    let (table, rest) = table(alloc, rest)?;
    let rest = word(b"add", rest)?;
    let rest = word(b"column", rest)?;
    let (name, rest) = new_name(alloc, rest)?;
    let (kind, rest) = kind(rest)?;
    ending((table, name, kind), rest)
}

#[tactic(auto, unfolding(crate::specs::Forms::drop_column))]
fn drop_column(alloc: Global, tokens: &[Token]) -> Result<(Tbl, Name), Broken>
    ensures { Gives (λ x. x) (λ x. []) result (drop_column.read tokens.now) }
{
    let rest = word(b"alter", tokens)?;
    let rest = word(b"table", rest)?;
    let (table, rest) = table(alloc, rest)?;
    let rest = word(b"drop", rest)?;
    let rest = word(b"column", rest)?;
    let (name, rest) = name(alloc, rest)?;
    ending((table, name), rest)
}

#[tactic(auto, unfolding(crate::specs::Forms::rename_column))]
fn rename_column(alloc: Global, tokens: &[Token]) -> Result<(Tbl, Name, Name), Broken>
    ensures { Gives (λ x. x) (λ x. []) result (rename_column.read tokens.now) }
{
    let rest = word(b"alter", tokens)?;
    let rest = word(b"table", rest)?;
    let (table, rest) = table(alloc, rest)?;
    let rest = word(b"rename", rest)?;
    let rest = word(b"column", rest)?;
    let (name, rest) = name(alloc, rest)?;
    let rest = word(b"to", rest)?;
    let (to, rest) = new_name(alloc, rest)?;
    ending((table, name, to), rest)
}

#[tactic(auto, unfolding(crate::specs::Forms::rename_table))]
fn rename_table(alloc: Global, tokens: &[Token]) -> Result<(Tbl, Name), Broken>
    ensures { Gives (λ x. x) (λ x. []) result (rename_table.read tokens.now) }
{
    let rest = word(b"alter", tokens)?;
    let rest = word(b"table", rest)?;
    let (table, rest) = table(alloc, rest)?;
    let rest = word(b"rename", rest)?;
    let rest = word(b"to", rest)?;
    let (to, rest) = name(alloc, rest)?;
    ending((table, to), rest)
}

#[tactic(auto, unfolding(crate::specs::Forms::upsert))]
fn upsert(alloc: Global, tokens: &[Token]) -> Result<(Tbl, Items<Row>), Broken>
    ensures { Gives (λ x. x) (λ x. []) result (upsert.read tokens.now) }
{
    let rest = word(b"upsert", tokens)?;
    let rest = word(b"into", rest)?;
    let (table, rest) = table(alloc, rest)?;
    let rest = word(b"values", rest)?;
    let (rows, rest) = rows(alloc, rest)?;
    ending((table, rows), rest)
}

#[tactic(auto, unfolding(crate::specs::Forms::delete))]
fn delete(alloc: Global, tokens: &[Token]) -> Result<(Tbl, Items<Row>), Broken>
    ensures { Gives (λ x. x) (λ x. []) result (delete.read tokens.now) }
{
    let rest = word(b"delete", tokens)?;
    let rest = word(b"from", rest)?;
    let (table, rest) = table(alloc, rest)?;
    let rest = word(b"key", rest)?;
    let (keys, rest) = rows(alloc, rest)?;
    ending((table, keys), rest)
}

#[tactic(auto, unfolding(crate::specs::Forms::delete_range))]
fn delete_range(alloc: Global, tokens: &[Token]) -> Result<(Tbl, Row, Row), Broken>
    ensures { Gives (λ x. x) (λ x. []) result (delete_range.read tokens.now) }
{
    let rest = word(b"delete", tokens)?;
    let rest = word(b"range", rest)?;
    let rest = word(b"from", rest)?;
    let (table, rest) = table(alloc, rest)?;
    let rest = word(b"between", rest)?;
    let (lo, rest) = row(alloc, rest)?;
    let rest = word(b"and", rest)?;
    let (hi, rest) = row(alloc, rest)?;
    ending((table, lo, hi), rest)
}

#[tactic(auto, unfolding(crate::specs::Forms::select))]
fn select(alloc: Global, tokens: &[Token]) -> Result<(Tbl, Option<Hlc>), Broken>
    ensures { Gives (λ x. x) (λ x. []) result (select.read tokens.now) }
{
    let rest = word(b"select", tokens)?;
    let rest = mark(b'*', rest)?;
    let rest = word(b"from", rest)?;
    let (table, rest) = table(alloc, rest)?;
    match asof(rest) {
        Ok((at, rest)) => ending((table, at), rest),
        Err(broken) => Err(broken),
    }
}

#[tactic(auto, unfolding(crate::specs::Forms::gc))]
fn gc(alloc: Global, tokens: &[Token]) -> Result<(Tbl, Hlc), Broken>
    ensures { Gives (λ x. x) (λ x. []) result (gc.read tokens.now) }
{
    let rest = word(b"gc", tokens)?;
    let (table, rest) = table(alloc, rest)?;
    let rest = word(b"before", rest)?;
    match time(rest) {
        Ok((before, rest)) => ending((table, before), rest),
        Err(broken) => Err(broken),
    }
}

fn cluster_command(alloc: Global, tokens: &[Token]) -> Result<Command, Broken>
    ensures { Gives (λ x. x) (λ x. []) result ((cluster making Cluster).read tokens.now) }
{
    let name = cluster(alloc, tokens)?;
    Ok(Command::Cluster { name })
}

fn tick_command(tokens: &[Token]) -> Result<Command, Broken>
    ensures { Gives (λ x. x) (λ x. []) result ((tick making Tick).read tokens.now) }
{
    let wall = tick(tokens)?;
    Ok(Command::Tick { wall })
}

fn create_database_command(alloc: Global, tokens: &[Token]) -> Result<Command, Broken>
    ensures { Gives (λ x. x) (λ x. []) result ((create_database making CreateDatabase).read tokens.now) }
{
    let name = create_database(alloc, tokens)?;
    Ok(Command::CreateDatabase { name })
}

fn create_table_command(alloc: Global, tokens: &[Token]) -> Result<Command, Broken>
    ensures { Gives (λ x. x) (λ x. []) result ((create_table making (λ x. CreateTable x.0 x.1 x.2 x.3)).read tokens.now) }
{
    let (table, columns, key, references) = create_table(alloc, tokens)?;
    Ok(Command::CreateTable {
        table,
        columns,
        key,
        references,
    })
}

fn drop_table_command(alloc: Global, tokens: &[Token]) -> Result<Command, Broken>
    ensures { Gives (λ x. x) (λ x. []) result ((drop_table making DropTable).read tokens.now) }
{
    let table = drop_table(alloc, tokens)?;
    Ok(Command::DropTable { table })
}

fn add_column_command(alloc: Global, tokens: &[Token]) -> Result<Command, Broken>
    ensures { Gives (λ x. x) (λ x. []) result ((add_column making (λ x. AddColumn x.0 x.1 x.2)).read tokens.now) }
{
    let (table, name, kind) = add_column(alloc, tokens)?;
    Ok(Command::AddColumn { table, name, kind })
}

fn drop_column_command(alloc: Global, tokens: &[Token]) -> Result<Command, Broken>
    ensures { Gives (λ x. x) (λ x. []) result ((drop_column making (λ x. DropColumn x.0 x.1)).read tokens.now) }
{
    let (table, name) = drop_column(alloc, tokens)?;
    Ok(Command::DropColumn { table, name })
}

fn rename_column_command(alloc: Global, tokens: &[Token]) -> Result<Command, Broken>
    ensures { Gives (λ x. x) (λ x. []) result ((rename_column making (λ x. RenameColumn x.0 x.1 x.2)).read tokens.now) }
{
    let (table, name, to) = rename_column(alloc, tokens)?;
    Ok(Command::RenameColumn { table, name, to })
}

fn rename_table_command(alloc: Global, tokens: &[Token]) -> Result<Command, Broken>
    ensures { Gives (λ x. x) (λ x. []) result ((rename_table making (λ x. RenameTable x.0 x.1)).read tokens.now) }
{
    let (table, to) = rename_table(alloc, tokens)?;
    Ok(Command::RenameTable { table, to })
}

fn upsert_command(alloc: Global, tokens: &[Token]) -> Result<Command, Broken>
    ensures { Gives (λ x. x) (λ x. []) result ((upsert making (λ x. Upsert x.0 x.1)).read tokens.now) }
{
    let (table, rows) = upsert(alloc, tokens)?;
    Ok(Command::Upsert { table, rows })
}

fn delete_command(alloc: Global, tokens: &[Token]) -> Result<Command, Broken>
    ensures { Gives (λ x. x) (λ x. []) result ((delete making (λ x. Delete x.0 x.1)).read tokens.now) }
{
    let (table, keys) = delete(alloc, tokens)?;
    Ok(Command::Delete { table, keys })
}

fn delete_range_command(alloc: Global, tokens: &[Token]) -> Result<Command, Broken>
    ensures { Gives (λ x. x) (λ x. []) result ((delete_range making (λ x. DeleteRange x.0 x.1 x.2)).read tokens.now) }
{
    let (table, lo, hi) = delete_range(alloc, tokens)?;
    Ok(Command::DeleteRange { table, lo, hi })
}

fn select_command(alloc: Global, tokens: &[Token]) -> Result<Command, Broken>
    ensures { Gives (λ x. x) (λ x. []) result ((select making (λ x. Select x.0 x.1)).read tokens.now) }
{
    let (table, at) = select(alloc, tokens)?;
    Ok(Command::Select { table, at })
}

fn gc_command(alloc: Global, tokens: &[Token]) -> Result<Command, Broken>
    ensures { Gives (λ x. x) (λ x. []) result ((gc making (λ x. Gc x.0 x.1)).read tokens.now) }
{
    let (table, before) = gc(alloc, tokens)?;
    Ok(Command::Gc { table, before })
}

#[tactic(auto, unfolding(crate::specs::Forms::schema_command))]
fn schema_command(alloc: Global, tokens: &[Token]) -> Result<Command, Broken>
    ensures { Gives (λ x. x) (λ x. []) result (schema_command.read tokens.now) }
{
    let found = farthest(
        create_database_command(alloc, tokens),
        create_table_command(alloc, tokens),
    );
    farthest(found, drop_table_command(alloc, tokens))
}

#[tactic(auto, unfolding(crate::specs::Forms::alter_command))]
fn alter_command(alloc: Global, tokens: &[Token]) -> Result<Command, Broken>
    ensures { Gives (λ x. x) (λ x. []) result (alter_command.read tokens.now) }
{
    let found = farthest(
        add_column_command(alloc, tokens),
        drop_column_command(alloc, tokens),
    );
    let found = farthest(found, rename_column_command(alloc, tokens));
    farthest(found, rename_table_command(alloc, tokens))
}

#[tactic(auto, unfolding(crate::specs::Forms::row_command))]
fn row_command(alloc: Global, tokens: &[Token]) -> Result<Command, Broken>
    ensures { Gives (λ x. x) (λ x. []) result (row_command.read tokens.now) }
{
    let found = farthest(upsert_command(alloc, tokens), delete_command(alloc, tokens));
    let found = farthest(found, delete_range_command(alloc, tokens));
    let found = farthest(found, select_command(alloc, tokens));
    farthest(found, gc_command(alloc, tokens))
}

/// The command of a line. The first of a script names the cluster, and no other does.
#[tactic(auto, unfolding(crate::specs::Forms::command))]
pub(crate) fn command(alloc: Global, first: bool, tokens: &[Token]) -> Result<Command, Broken>
    ensures { Gives (λ x. x) (λ x. []) result ((command first).read tokens.now) }
{
    if first {
        return cluster_command(alloc, tokens);
    }
    let found = farthest(tick_command(tokens), schema_command(alloc, tokens));
    let found = farthest(found, alter_command(alloc, tokens));
    let found = farthest(found, row_command(alloc, tokens));
    farthest(found, layer_command(alloc, tokens))
}
