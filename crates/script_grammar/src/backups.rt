//! The parts of the forms of backups: collections, sources and lists of tables.
ghost use Rattle.std.specs.Prelude.{◌≡◌, ◌≤◌, length, IfOk, OnOk, []};
ghost use Rattle.std.specs.List.{fold, list_any};
ghost use Rattle.script_grammar.specs.Grammar.{Gives, read_one};
ghost use Rattle.script_grammar.specs.Parts.{table, collection_of, is_no_slash, slash_at, time_after, named_source, source_text, source_word, source_of, in_collection, source_in, is_table, with_table, tables};

use crate::forms::{Item, list_of, word};
use crate::parts::table;
use crate::{Broken, Token};
use mvcc_keys::{Hlc, Items, Memory, parse_time};
use std::alloc::Global;
use table_descriptors::Name;

/// Which backup of a collection is meant.
#[derive(Drop)]
pub enum Src {
    /// The one whose full backup ends last.
    Latest,
    /// The one in the subdirectory of a cluster and the end of its full backup.
    Named { cluster: Name, full: Hlc },
}

fn collection_of(alloc: Global, token: &Token) -> Result<Option<Name>, Memory>
    ensures { IfOk result (λ n. n ≡ collection_of token.now) }
{
    match token {
        Token::Text(found) => Name::parse(alloc, found.as_bytes()),
        _ => Ok(None),
    }
}

/// A text that is the name of a collection, or of a database.
pub fn collection(alloc: Global, tokens: &[Token]) -> Result<(Name, &[Token]), Broken>
    ensures { Gives (λ x. x.0) (λ x. x.1.now) result (read_one collection_of tokens.now) }
{
    let Some((first, rest)) = tokens.split_first() else {
        return Err(Broken::At(0));
    };
    match collection_of(alloc, first)? {
        Some(found) => Ok((found, rest)),
        None => Err(Broken::At(tokens.len())),
    }
}

fn is_no_slash(byte: u8) -> bool
    ensures { result ≡ is_no_slash byte }
{
    byte != b'/'
}

fn time_after(text: &[u8]) -> Option<Hlc>
    ensures { result ≡ time_after text.now }
{
    match text.split_first() {
        Some((_, time)) => parse_time(time).ok(),
        None => None,
    }
}

fn named_source(cluster: Option<Name>, full: Option<Hlc>) -> Option<Src>
    ensures { result ≡ named_source cluster full }
{
    let cluster = cluster?;
    let full = full?;
    Some(Src::Named { cluster, full })
}

/// The place of the first slash, and the length where none is there.
fn slash_at(text: &[u8]) -> usize
    ensures place { result ≡ slash_at text.now }
    ensures within { result ≤ length text.now }
{
    text.iter().take_while(|b| is_no_slash(**b)).count()
}

#[tactic(auto, unfolding(crate::specs::Parts::source_text))]
fn source_text(alloc: Global, text: &[u8]) -> Result<Option<Src>, Memory>
    ensures { IfOk result (λ s. s ≡ source_text text.now) }
{
    let (cluster, rest) = text.split_at(slash_at(text));
    let cluster = Name::parse(alloc, cluster)?;
    Ok(named_source(cluster, time_after(rest)))
}

fn source_word(word: &[u8]) -> Option<Src>
    ensures { result ≡ source_word word.now }
{
    if word == b"latest".as_slice() {
        Some(Src::Latest)
    } else {
        None
    }
}

fn source_of(alloc: Global, token: &Token) -> Result<Option<Src>, Memory>
    ensures { IfOk result (λ s. s ≡ source_of token.now) }
{
    match token {
        Token::Word(found) => Ok(source_word(found.as_bytes())),
        Token::Text(found) => source_text(alloc, found.as_bytes()),
        _ => Ok(None),
    }
}

/// `LATEST`, or a text that names a cluster and a time.
fn source(alloc: Global, tokens: &[Token]) -> Result<(Src, &[Token]), Broken>
    ensures { Gives (λ x. x.0) (λ x. x.1.now) result (read_one source_of tokens.now) }
{
    let Some((first, rest)) = tokens.split_first() else {
        return Err(Broken::At(0));
    };
    match source_of(alloc, first)? {
        Some(found) => Ok((found, rest)),
        None => Err(Broken::At(tokens.len())),
    }
}

/// `IN` and a collection.
fn in_collection(
    alloc: Global,
    source: Src,
    tokens: &[Token],
) -> Result<((Src, Name), &[Token]), Broken>
    ensures { Gives (λ x. x.0) (λ x. x.1.now) result ((in_collection source).read tokens.now) }
{
    let rest = word(b"in", tokens)?;
    let (collection, rest) = collection(alloc, rest)?;
    Ok(((source, collection), rest))
}

/// A source, `IN` and a collection.
#[tactic(auto, unfolding(crate::specs::Parts::source_in))]
pub fn source_in(alloc: Global, tokens: &[Token]) -> Result<((Src, Name), &[Token]), Broken>
    ensures { Gives (λ x. x.0) (λ x. x.1.now) result (source_in.read tokens.now) }
{
    match source(alloc, tokens) {
        Ok((source, rest)) => in_collection(alloc, source, rest),
        Err(broken) => Err(broken),
    }
}

#[derive(Drop)]
struct EachTable {}

impl Item for EachTable {
    type Value = (Name, Name);

    ghost reads = { table.read };

    fn read(alloc: Global, tokens: &[Token]) -> Result<((Name, Name), &[Token]), Broken> {
        table(alloc, tokens)
    }
}

fn is_table(table: &(Name, Name), other: &(Name, Name)) -> bool
    ensures { result ≡ is_table table.now other.now }
{
    table.0.is_same(&other.0) && table.1.is_same(&other.1)
}

fn is_among(table: &(Name, Name), tables: &[(Name, Name)]) -> bool
    ensures { result ≡ list_any (is_table table.now) tables.now }
{
    tables.iter().any(|other| is_table(table, other))
}

fn copy_table(alloc: Global, table: &(Name, Name)) -> Result<(Name, Name), Memory>
    ensures { IfOk result (λ t. t ≡ table.now) }
{
    let (database, name) = table;
    Ok((database.copy(alloc)?, name.copy(alloc)?))
}

fn put_table(
    alloc: Global,
    table: &(Name, Name),
    tables: &mut Vec<(Name, Name)>,
) -> Result<(), Memory>
    ensures { OnOk result (tables.new.items ≡ with_table tables.old.items table.now) }
{
    if is_among(table, tables.as_slice()) {
        return Ok(());
    }
    let table = copy_table(alloc, table)?;
    Ok(tables.push(table)?)
}

/// Each table once, at its first place.
fn each_once(alloc: Global, tables: &[(Name, Name)]) -> Result<Vec<(Name, Name)>, Memory>
    ensures { IfOk result (λ v. v.items ≡ fold with_table [] tables.now) }
{
    let mut found = Vec::new(alloc);
    for table in tables {
        put_table(alloc, table, &mut found)?;
    }
    Ok(found)
}

/// Tables with commas, each once, at its first place.
#[tactic(auto, unfolding(crate::specs::Parts::tables))]
pub fn tables(alloc: Global, tokens: &[Token]) -> Result<(Items<(Name, Name)>, &[Token]), Broken>
    ensures { Gives (λ x. x.0) (λ x. x.1.now) result (tables.read tokens.now) }
{
    let (tables, rest) = list_of::<EachTable>(alloc, tokens)?;
    Ok((Items::from_vec(each_once(alloc, tables.as_slice())?), rest))
}
