//! What forms of lines are made of: words, marks, lists, ends, and the farther of two faults.
ghost use Rattle.std.specs.Prelude.{◌≡◌, Bool, List, length, [], ◌∷◌, ◌++◌, ◌<◌, IfOk, OnOk};
ghost use Rattle.std.specs.Str.{bytes_eq};
ghost use Rattle.script_grammar.specs.Grammar.{Gives, Progress, farthest, word, is_word, mark, is_mark, begins_with, read_within, read_next, read_list, ending};
ghost use Rattle.script_tokens.specs.declared.token.Token.{Token};

use crate::{Broken, Token};
use mvcc_keys::Memory;
use std::alloc::Global;
use std::marker::PhantomData;

/// A word, given in lower case.
pub fn word<'a>(wanted: &[u8], tokens: &'a [Token]) -> Result<&'a [Token], Broken>
    ensures { Gives (λ _. tt) (λ x. x.now) result ((word wanted.now).read tokens.now) }
{
    match tokens.split_first() {
        Some((Token::Word(found), rest)) if found.as_bytes() == wanted => Ok(rest),
        _ => Err(Broken::At(tokens.len())),
    }
}

/// Whether a word stands next.
pub fn begins_with_word(wanted: &[u8], tokens: &[Token]) -> bool
    ensures { result ≡ begins_with (is_word wanted.now) tokens.now }
{
    match tokens.split_first() {
        Some((Token::Word(found), _)) => found.as_bytes() == wanted,
        _ => false,
    }
}

/// A mark.
pub fn mark<'a>(wanted: u8, tokens: &'a [Token]) -> Result<&'a [Token], Broken>
    ensures { Gives (λ _. tt) (λ x. x.now) result ((mark wanted).read tokens.now) }
{
    match tokens.split_first() {
        Some((Token::Mark(found), rest)) if *found == wanted => Ok(rest),
        _ => Err(Broken::At(tokens.len())),
    }
}

/// Whether a token is this mark.
pub fn is_mark(wanted: u8, token: &Token) -> bool
    ensures { result ≡ is_mark wanted token.now }
{
    match token {
        Token::Mark(found) => *found == wanted,
        _ => false,
    }
}

/// A part that may stand any number of times. It is told from what follows it by its first token.
pub trait Part {
    type Value: Drop;

    ghost starts: { Token → Bool };

    ghost reads: { List Token → Progress Self.Value };

    fn starts(token: &Token) -> bool
        ensures { result ≡ starts token.now };

    fn read(alloc: Global, tokens: &[Token]) -> Result<(Self::Value, &[Token]), Broken>
        ensures { Gives (λ x. x.0) (λ x. x.1.now) result (reads tokens.now) };
}

/// What stands in a list with commas.
pub trait Item {
    type Value: Drop;

    ghost reads: { List Token → Progress Self.Value };

    fn read(alloc: Global, tokens: &[Token]) -> Result<(Self::Value, &[Token]), Broken>
        ensures { Gives (λ x. x.0) (λ x. x.1.now) result (reads tokens.now) };
}

/// A comma and an item.
#[derive(Drop)]
struct Next<I> {
    item: PhantomData<I>,
}

impl<I: Item> Part for Next<I> {
    type Value = I::Value;

    ghost starts = { is_mark 44 };

    ghost reads = { read_next I.reads };

    fn starts(token: &Token) -> bool {
        is_mark(b',', token)
    }

    fn read(alloc: Global, tokens: &[Token]) -> Result<(I::Value, &[Token]), Broken> {
        let rest = mark(b',', tokens)?;
        I::read(alloc, rest)
    }
}

fn begins_with<P: Part>(tokens: &[Token]) -> bool
    ensures { result ≡ begins_with P.starts tokens.now }
{
    match tokens.split_first() {
        Some((first, _)) => P::starts(first),
        None => false,
    }
}

fn put<T: Drop>(items: &mut Vec<T>, item: T) -> Result<(), Memory>
    ensures { OnOk result (items.new.items ≡ items.old.items ++ item ∷ []) }
{
    Ok(items.push(item)?)
}

/// The part as often as it stands there.
pub fn many<P: Part>(alloc: Global, tokens: &[Token]) -> Result<(Vec<P::Value>, &[Token]), Broken>
    ensures { Gives (λ x. x.0.items) (λ x. x.1.now) result (read_within (length tokens.now) P.starts P.reads tokens.now) }
{
    let mut found = Vec::new(alloc);
    let mut rest = tokens;
    for _ in 0..tokens.len() {
        if !begins_with::<P>(rest) {
            return Ok((found, rest));
        }
        let (item, after) = P::read(alloc, rest)?;
        put(&mut found, item)?;
        rest = after;
    }
    Ok((found, rest))
}

/// The items with one in front of them.
pub(crate) fn with_first<T: Drop>(first: T, others: Vec<T>) -> Result<Vec<T>, Memory>
    ensures { IfOk result (λ v. v.items ≡ first ∷ others.items) }
{
    let mut items = others;
    items.insert(0, first)?;
    Ok(items)
}

/// A list with commas.
pub fn list_of<I: Item>(
    alloc: Global,
    tokens: &[Token],
) -> Result<(Vec<I::Value>, &[Token]), Broken>
    ensures read { Gives (λ x. x.0.items) (λ x. x.1.now) result (read_list I.reads tokens.now) }
    ensures some { IfOk result (λ x. 0 < length x.0.items) }
{
    let (first, rest) = I::read(alloc, tokens)?;
    let (others, rest) = many::<Next<I>>(alloc, rest)?;
    Ok((with_first(first, others)?, rest))
}

/// The end of a line, or a semicolon before it: the value that the line has.
pub fn ending<T: Drop>(value: T, tokens: &[Token]) -> Result<T, Broken>
    ensures { Gives (λ x. x) (λ x. []) result ((ending value).read tokens.now) }
{
    match tokens {
        [] => Ok(value),
        [Token::Mark(59)] => Ok(value),
        [Token::Mark(59), rest @ ..] => Err(Broken::At(rest.len())),
        _ => Err(Broken::At(tokens.len())),
    }
}

/// What one form of a line gives, or else another: of two faults the farther one.
pub fn farthest<T: Drop>(one: Result<T, Broken>, other: Result<T, Broken>) -> Result<T, Broken>
    ensures { (p q : Progress T) → Gives (λ x. x) (λ x. []) one p → Gives (λ x. x) (λ x. []) other q → Gives (λ x. x) (λ x. []) result (farthest p q) }
{
    match (one, other) {
        (Ok(found), _) => Ok(found),
        (Err(Broken::At(_)), Ok(found)) => Ok(found),
        (Err(Broken::At(left)), Err(Broken::At(less))) => Err(Broken::At(left.min(less))),
        _ => Err(Broken::Memory),
    }
}
