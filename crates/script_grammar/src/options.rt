//! The options of backups and of restores, and the clauses that end the forms of backups.
ghost use Rattle.std.specs.Prelude.{◌≡◌, IfOk, None};
ghost use Rattle.std.specs.List.{fold};
ghost use Rattle.std.specs.Option.{option_copied};
ghost use Rattle.script_grammar.specs.Grammar.{Gives, read_one};
ghost use Rattle.script_grammar.specs.Parts.{backup_option_of_word, backup_option_of, is_history, options_in, backup_options_clause, backup_options, options_after, backup_clauses, restore_option, new_name_after, options_clause, restore_options};

use crate::backups::collection;
use crate::forms::{Item, begins_with_word, list_of, mark, word};
use crate::parts::asof;
use crate::{Broken, Token};
use mvcc_keys::{Hlc, Memory};
use std::alloc::Global;
use table_descriptors::Name;

/// What the options of a backup ask for: a field is true exactly where its option stands.
#[derive(Clone, Copy, Debug)]
pub struct BackupOptions {
    /// All versions of rows are kept, and not only those at the end of the layer.
    pub history: bool,
}

/// An option of a backup.
#[derive(Drop)]
pub(crate) enum BackupOption {
    RevisionHistory,
}

fn backup_option_of_word(word: &[u8]) -> Option<BackupOption>
    ensures { result ≡ backup_option_of_word word.now }
{
    if word == b"revision_history".as_slice() {
        Some(BackupOption::RevisionHistory)
    } else {
        None
    }
}

fn backup_option_of(token: &Token) -> Option<BackupOption>
    ensures { result ≡ backup_option_of token.now }
{
    match token {
        Token::Word(found) => backup_option_of_word(found.as_bytes()),
        _ => None,
    }
}

#[derive(Drop)]
struct EachBackupOption {}

impl Item for EachBackupOption {
    type Value = BackupOption;

    ghost reads = { read_one backup_option_of };

    fn read(_alloc: Global, tokens: &[Token]) -> Result<(BackupOption, &[Token]), Broken> {
        let Some((first, rest)) = tokens.split_first() else {
            return Err(Broken::At(0));
        };
        match backup_option_of(first) {
            Some(found) => Ok((found, rest)),
            None => Err(Broken::At(tokens.len())),
        }
    }
}

fn is_history(option: &BackupOption) -> bool
    ensures { result ≡ is_history option.now }
{
    matches!(option, BackupOption::RevisionHistory)
}

fn options_in(options: &[BackupOption]) -> BackupOptions
    ensures { result ≡ options_in options.now }
{
    BackupOptions {
        history: options.iter().any(is_history),
    }
}

#[tactic(auto, unfolding(crate::specs::Parts::backup_options_clause))]
fn backup_options_clause(
    alloc: Global,
    tokens: &[Token],
) -> Result<(BackupOptions, &[Token]), Broken>
    ensures { Gives (λ x. x.0) (λ x. x.1.now) result (backup_options_clause.read tokens.now) }
{
    let rest = word(b"with", tokens)?;
    let (options, rest) = list_of::<EachBackupOption>(alloc, rest)?;
    Ok((options_in(options.as_slice()), rest))
}

/// `WITH` and options, or nothing.
#[tactic(auto, unfolding(crate::specs::Parts::backup_options))]
fn backup_options(alloc: Global, tokens: &[Token]) -> Result<(BackupOptions, &[Token]), Broken>
    ensures { Gives (λ x. x.0) (λ x. x.1.now) result (backup_options.read tokens.now) }
{
    if begins_with_word(b"with", tokens) {
        return backup_options_clause(alloc, tokens);
    }
    Ok((options_in(&[]), tokens))
}

fn options_after(
    alloc: Global,
    at: Option<Hlc>,
    tokens: &[Token],
) -> Result<((Option<Hlc>, BackupOptions), &[Token]), Broken>
    ensures { Gives (λ x. x.0) (λ x. x.1.now) result ((options_after at).read tokens.now) }
{
    match backup_options(alloc, tokens) {
        Ok((options, rest)) => Ok(((at, options), rest)),
        Err(broken) => Err(broken),
    }
}

/// The end of a backup's form: its time and its options, each of which may be absent.
#[tactic(auto, unfolding(crate::specs::Parts::backup_clauses))]
pub fn backup_clauses(
    alloc: Global,
    tokens: &[Token],
) -> Result<((Option<Hlc>, BackupOptions), &[Token]), Broken>
    ensures { Gives (λ x. x.0) (λ x. x.1.now) result (backup_clauses.read tokens.now) }
{
    match asof(tokens) {
        Ok((at, rest)) => options_after(alloc, at, rest),
        Err(broken) => Err(broken),
    }
}

/// An option of a restore.
#[derive(Drop)]
pub(crate) enum RestoreOption {
    NewName(Name),
}

#[derive(Drop)]
struct EachRestoreOption {}

impl Item for EachRestoreOption {
    type Value = RestoreOption;

    ghost reads = { restore_option.read };

    #[tactic(auto, unfolding(crate::specs::Parts::restore_option))]
    fn read(alloc: Global, tokens: &[Token]) -> Result<(RestoreOption, &[Token]), Broken> {
        let rest = word(b"new_db_name", tokens)?;
        let rest = mark(b'=', rest)?;
        let (name, rest) = collection(alloc, rest)?;
        Ok((RestoreOption::NewName(name), rest))
    }
}

/// The last of the names that options give to a restored database.
fn new_name_in(options: &[RestoreOption]) -> Option<&Name>
    ensures { option_copied result ≡ fold new_name_after None options.now }
{
    let mut found = None;
    for option in options {
        match option {
            RestoreOption::NewName(name) => found = Some(name),
        }
    }
    found
}

fn copy_of(alloc: Global, name: Option<&Name>) -> Result<Option<Name>, Memory>
    ensures { IfOk result (λ n. n ≡ option_copied name.entry) }
{
    match name {
        Some(name) => Ok(Some(name.copy(alloc)?)),
        None => Ok(None),
    }
}

#[tactic(auto, unfolding(crate::specs::Parts::options_clause))]
fn options_clause(alloc: Global, tokens: &[Token]) -> Result<(Option<Name>, &[Token]), Broken>
    ensures { Gives (λ x. x.0) (λ x. x.1.now) result (options_clause.read tokens.now) }
{
    let rest = word(b"with", tokens)?;
    let (options, rest) = list_of::<EachRestoreOption>(alloc, rest)?;
    Ok((copy_of(alloc, new_name_in(options.as_slice()))?, rest))
}

/// `WITH` and options, or nothing: the new name of a restored database, if one is given.
#[tactic(auto, unfolding(crate::specs::Parts::restore_options))]
pub fn restore_options(alloc: Global, tokens: &[Token]) -> Result<(Option<Name>, &[Token]), Broken>
    ensures { Gives (λ x. x.0) (λ x. x.1.now) result (restore_options.read tokens.now) }
{
    if begins_with_word(b"with", tokens) {
        return options_clause(alloc, tokens);
    }
    Ok((None, tokens))
}
