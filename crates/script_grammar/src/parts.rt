//! The parts that forms of lines share.
ghost use Rattle.std.specs.Prelude.{◌≡◌, false, IfOk};
ghost use Rattle.script_grammar.specs.Grammar.{Gives, read_one, maybe_one, is_mark};
ghost use Rattle.script_grammar.specs.Parts.{name, is_reserved, new_name_of, count_of, kind_of_word, kind_of, datum_of_word, datum_of, time_of, order_of_word, order_of, table, row, rows, time_clause, asof, column, column_and_comma, starts_column, columns, key_column, key, reference, references};

use crate::forms::{Item, Part, begins_with_word, is_mark, list_of, many, mark, with_first, word};
use crate::{Broken, Token};
use mvcc_keys::{Hlc, Items, Memory, parse_time};
use row_codec::{Datum, Kind, Row};
use std::alloc::Global;
use table_descriptors::{KeyNames, Name};

/// Any word.
pub fn name(alloc: Global, tokens: &[Token]) -> Result<(Name, &[Token]), Broken>
    ensures { Gives (λ x. x.0) (λ x. x.1.now) result (name.read tokens.now) }
{
    match tokens.split_first() {
        Some((Token::Word(found), rest)) => Ok((found.copy(alloc)?, rest)),
        _ => Err(Broken::At(tokens.len())),
    }
}

fn is_reserved(word: &[u8]) -> bool
    ensures { result ≡ is_reserved word.now }
{
    word == b"primary".as_slice() || word == b"references".as_slice()
}

/// A word that can name a new column.
pub fn new_name(alloc: Global, tokens: &[Token]) -> Result<(Name, &[Token]), Broken>
    ensures { Gives (λ x. x.0) (λ x. x.1.now) result (read_one new_name_of tokens.now) }
{
    match tokens.split_first() {
        Some((Token::Word(found), rest)) if !is_reserved(found.as_bytes()) => {
            Ok((found.copy(alloc)?, rest))
        }
        _ => Err(Broken::At(tokens.len())),
    }
}

/// A number that isn't negative.
pub fn count(tokens: &[Token]) -> Result<(u64, &[Token]), Broken>
    ensures { Gives (λ x. x.0) (λ x. x.1.now) result (read_one count_of tokens.now) }
{
    match tokens.split_first() {
        Some((Token::Number(found), rest)) if *found >= 0 => Ok((found.unsigned_abs(), rest)),
        _ => Err(Broken::At(tokens.len())),
    }
}

fn kind_of_word(word: &[u8]) -> Option<Kind>
    ensures { result ≡ kind_of_word word.now }
{
    if word == b"int".as_slice() {
        Some(Kind::Int)
    } else if word == b"string".as_slice() {
        Some(Kind::Text)
    } else if word == b"bytes".as_slice() {
        Some(Kind::Bytes)
    } else if word == b"bool".as_slice() {
        Some(Kind::Bool)
    } else {
        None
    }
}

fn kind_of(token: &Token) -> Option<Kind>
    ensures { result ≡ kind_of token.now }
{
    match token {
        Token::Word(found) => kind_of_word(found.as_bytes()),
        _ => None,
    }
}

/// The type of a column.
pub fn kind(tokens: &[Token]) -> Result<(Kind, &[Token]), Broken>
    ensures { Gives (λ x. x.0) (λ x. x.1.now) result (read_one kind_of tokens.now) }
{
    let Some((first, rest)) = tokens.split_first() else {
        return Err(Broken::At(0));
    };
    match kind_of(first) {
        Some(found) => Ok((found, rest)),
        None => Err(Broken::At(tokens.len())),
    }
}

fn datum_of_word(word: &[u8]) -> Option<Datum>
    ensures { result ≡ datum_of_word word.now }
{
    if word == b"true".as_slice() {
        Some(Datum::Bool(true))
    } else if word == b"false".as_slice() {
        Some(Datum::Bool(false))
    } else if word == b"null".as_slice() {
        Some(Datum::Null)
    } else {
        None
    }
}

fn datum_of(alloc: Global, token: &Token) -> Result<Option<Datum>, Memory>
    ensures { IfOk result (λ d. d ≡ datum_of token.now) }
{
    match token {
        Token::Word(found) => Ok(datum_of_word(found.as_bytes())),
        Token::Number(found) => Ok(Some(Datum::Int(*found))),
        Token::Text(found) => Ok(Some(Datum::Text(found.copy(alloc)?))),
        Token::Bytes(found) => Ok(Some(Datum::Bytes(found.copy(alloc)?))),
        _ => Ok(None),
    }
}

/// A value of a row.
#[derive(Drop)]
struct EachValue {}

impl Item for EachValue {
    type Value = Datum;

    ghost reads = { read_one datum_of };

    fn read(alloc: Global, tokens: &[Token]) -> Result<(Datum, &[Token]), Broken> {
        let Some((first, rest)) = tokens.split_first() else {
            return Err(Broken::At(0));
        };
        match datum_of(alloc, first)? {
            Some(found) => Ok((found, rest)),
            None => Err(Broken::At(tokens.len())),
        }
    }
}

/// A text that spells a time.
pub fn time(tokens: &[Token]) -> Result<(Hlc, &[Token]), Broken>
    ensures { Gives (λ x. x.0) (λ x. x.1.now) result (read_one time_of tokens.now) }
{
    let Some((first, rest)) = tokens.split_first() else {
        return Err(Broken::At(0));
    };
    match time_of(first) {
        Some(found) => Ok((found, rest)),
        None => Err(Broken::At(tokens.len())),
    }
}

fn time_of(token: &Token) -> Option<Hlc>
    ensures { result ≡ time_of token.now }
{
    match token {
        Token::Text(found) => parse_time(found.as_bytes()).ok(),
        _ => None,
    }
}

/// A database, a point and a table.
#[tactic(auto, unfolding(crate::specs::Parts::table))]
pub fn table(alloc: Global, tokens: &[Token]) -> Result<((Name, Name), &[Token]), Broken>
    ensures { Gives (λ x. x.0) (λ x. x.1.now) result (table.read tokens.now) }
{
    let (database, rest) = name(alloc, tokens)?;
    let rest = mark(b'.', rest)?;
    let (table, rest) = name(alloc, rest)?;
    Ok(((database, table), rest))
}

/// Values in brackets.
#[tactic(auto, unfolding(crate::specs::Parts::row))]
pub fn row(alloc: Global, tokens: &[Token]) -> Result<(Row, &[Token]), Broken>
    ensures { Gives (λ x. x.0) (λ x. x.1.now) result (row.read tokens.now) }
{
    let rest = mark(b'(', tokens)?;
    let (values, rest) = list_of::<EachValue>(alloc, rest)?;
    let rest = mark(b')', rest)?;
    Ok((Row::from_vec(values), rest))
}

#[derive(Drop)]
struct EachRow {}

impl Item for EachRow {
    type Value = Row;

    ghost reads = { row.read };

    fn read(alloc: Global, tokens: &[Token]) -> Result<(Row, &[Token]), Broken> {
        row(alloc, tokens)
    }
}

/// Rows with commas.
pub fn rows(alloc: Global, tokens: &[Token]) -> Result<(Items<Row>, &[Token]), Broken>
    ensures { Gives (λ x. x.0) (λ x. x.1.now) result (rows.read tokens.now) }
{
    let (rows, rest) = list_of::<EachRow>(alloc, tokens)?;
    Ok((Items::from_vec(rows), rest))
}

#[tactic(auto, unfolding(crate::specs::Parts::time_clause))]
fn time_clause(tokens: &[Token]) -> Result<(Option<Hlc>, &[Token]), Broken>
    ensures { Gives (λ x. x.0) (λ x. x.1.now) result (time_clause.read tokens.now) }
{
    let rest = word(b"as", tokens)?;
    let rest = word(b"of", rest)?;
    let rest = word(b"system", rest)?;
    let rest = word(b"time", rest)?;
    match time(rest) {
        Ok((time, rest)) => Ok((Some(time), rest)),
        Err(broken) => Err(broken),
    }
}

/// `AS OF SYSTEM TIME` and a time, or nothing.
#[tactic(auto, unfolding(crate::specs::Parts::asof))]
pub fn asof(tokens: &[Token]) -> Result<(Option<Hlc>, &[Token]), Broken>
    ensures { Gives (λ x. x.0) (λ x. x.1.now) result (asof.read tokens.now) }
{
    if begins_with_word(b"as", tokens) {
        return time_clause(tokens);
    }
    Ok((None, tokens))
}

/// A new column's name and type.
#[tactic(auto, unfolding(crate::specs::Parts::column))]
pub fn column(alloc: Global, tokens: &[Token]) -> Result<((Name, Kind), &[Token]), Broken>
    ensures { Gives (λ x. x.0) (λ x. x.1.now) result (column.read tokens.now) }
{
    let (name, rest) = new_name(alloc, tokens)?;
    let (kind, rest) = kind(rest)?;
    Ok(((name, kind), rest))
}

#[tactic(auto, unfolding(crate::specs::Parts::column_and_comma))]
fn column_and_comma(alloc: Global, tokens: &[Token]) -> Result<((Name, Kind), &[Token]), Broken>
    ensures { Gives (λ x. x.0) (λ x. x.1.now) result (column_and_comma.read tokens.now) }
{
    let (column, rest) = column(alloc, tokens)?;
    let rest = mark(b',', rest)?;
    Ok((column, rest))
}

#[derive(Drop)]
struct EachColumn {}

impl Part for EachColumn {
    type Value = (Name, Kind);

    ghost starts = { starts_column };

    ghost reads = { column_and_comma.read };

    fn starts(token: &Token) -> bool {
        match token {
            Token::Word(found) => !is_reserved(found.as_bytes()),
            _ => false,
        }
    }

    fn read(alloc: Global, tokens: &[Token]) -> Result<((Name, Kind), &[Token]), Broken> {
        column_and_comma(alloc, tokens)
    }
}

/// The columns of a new table, each with the comma after it.
#[tactic(auto, unfolding(crate::specs::Parts::columns))]
pub fn columns(alloc: Global, tokens: &[Token]) -> Result<(Items<(Name, Kind)>, &[Token]), Broken>
    ensures { Gives (λ x. x.0) (λ x. x.1.now) result (columns.read tokens.now) }
{
    let (first, rest) = column_and_comma(alloc, tokens)?;
    let (others, rest) = many::<EachColumn>(alloc, rest)?;
    Ok((Items::from_vec(with_first(first, others)?), rest))
}

fn order_of_word(word: &[u8]) -> Option<bool>
    ensures { result ≡ order_of_word word.now }
{
    if word == b"asc".as_slice() {
        Some(false)
    } else if word == b"desc".as_slice() {
        Some(true)
    } else {
        None
    }
}

fn order_of(token: &Token) -> Option<bool>
    ensures { result ≡ order_of token.now }
{
    match token {
        Token::Word(found) => order_of_word(found.as_bytes()),
        _ => None,
    }
}

/// Whether `DESC` stands next. `ASC` or nothing says that it doesn't.
fn order(tokens: &[Token]) -> Result<(bool, &[Token]), Broken>
    ensures { Gives (λ x. x.0) (λ x. x.1.now) result ((maybe_one order_of false).read tokens.now) }
{
    let Some((first, rest)) = tokens.split_first() else {
        return Ok((false, tokens));
    };
    match order_of(first) {
        Some(found) => Ok((found, rest)),
        None => Ok((false, tokens)),
    }
}

/// A key column's name, and whether it descends.
#[derive(Drop)]
struct EachKeyColumn {}

impl Item for EachKeyColumn {
    type Value = (Name, bool);

    ghost reads = { key_column.read };

    #[tactic(auto, unfolding(crate::specs::Parts::key_column))]
    fn read(alloc: Global, tokens: &[Token]) -> Result<((Name, bool), &[Token]), Broken> {
        let (name, rest) = name(alloc, tokens)?;
        let (down, rest) = order(rest)?;
        Ok(((name, down), rest))
    }
}

/// `PRIMARY KEY` and its columns in brackets.
#[tactic(auto, unfolding(crate::specs::Parts::key))]
pub fn key(alloc: Global, tokens: &[Token]) -> Result<(KeyNames, &[Token]), Broken>
    ensures { Gives (λ x. x.0) (λ x. x.1.now) result (key.read tokens.now) }
{
    let rest = word(b"primary", tokens)?;
    let rest = word(b"key", rest)?;
    let rest = mark(b'(', rest)?;
    let (columns, rest) = list_of::<EachKeyColumn>(alloc, rest)?;
    let rest = mark(b')', rest)?;
    Ok((KeyNames::from_vec(columns), rest))
}

#[derive(Drop)]
struct EachReference {}

impl Part for EachReference {
    type Value = (Name, Name);

    ghost starts = { is_mark 44 };

    ghost reads = { reference.read };

    fn starts(token: &Token) -> bool {
        is_mark(b',', token)
    }

    #[tactic(auto, unfolding(crate::specs::Parts::reference))]
    fn read(alloc: Global, tokens: &[Token]) -> Result<((Name, Name), &[Token]), Broken> {
        let rest = mark(b',', tokens)?;
        let rest = word(b"references", rest)?;
        table(alloc, rest)
    }
}

/// The tables that a new table references, each with the comma before it.
pub fn references(
    alloc: Global,
    tokens: &[Token],
) -> Result<(Items<(Name, Name)>, &[Token]), Broken>
    ensures { Gives (λ x. x.0) (λ x. x.1.now) result (references.read tokens.now) }
{
    let (tables, rest) = many::<EachReference>(alloc, tokens)?;
    Ok((Items::from_vec(tables), rest))
}
