//! The lines of rows.
ghost use Rattle.std.specs.Prelude.{◌≡◌, ◌++◌, codes, OnOk};
ghost use Rattle.reply_texts.specs.Texts.{datum_text, more_text, values_text, row_text, rows_text};
ghost use Rattle.script_tokens.specs.Spellings.{text_byte, double_quotes};
ghost use Rattle.std.specs.Fmt.{signed_decimal};
ghost use Rattle.hex.specs.Hex.{encode_lower};

use mvcc_keys::Memory;
use row_codec::{Datum, Row};

pub fn put_bytes(bytes: &[u8], text: &mut Vec<u8>) -> Result<(), Memory>
    ensures { OnOk result (text.new.items ≡ text.old.items ++ bytes.now) }
{
    Ok(text.extend_from_slice(bytes)?)
}

/// Appends a byte of a text, a quote twice.
fn put_text_byte(byte: u8, text: &mut Vec<u8>) -> Result<(), Memory>
    ensures { OnOk result (text.new.items ≡ text.old.items ++ text_byte byte) }
{
    if byte == b'\'' {
        return put_bytes(b"''", text);
    }
    put_bytes(&[byte], text)
}

/// Appends bytes with each quote written twice.
fn put_text_bytes(bytes: &[u8], text: &mut Vec<u8>) -> Result<(), Memory>
    ensures { OnOk result (text.new.items ≡ text.old.items ++ double_quotes bytes.now) }
{
    for byte in bytes {
        put_text_byte(*byte, text)?;
    }
    Ok(())
}

fn put_text(value: &[u8], text: &mut Vec<u8>) -> Result<(), Memory>
    ensures { OnOk result (text.new.items ≡ text.old.items ++ (codes "'" ++ (double_quotes value.now ++ codes "'"))) }
{
    put_bytes(b"'", text)?;
    put_text_bytes(value, text)?;
    put_bytes(b"'", text)
}

fn put_hex(value: &[u8], text: &mut Vec<u8>) -> Result<(), Memory>
    ensures { OnOk result (text.new.items ≡ text.old.items ++ (codes "x'" ++ (encode_lower value.now ++ codes "'"))) }
{
    let alloc = *text.allocator();
    let digits = hex::encode(alloc, value)?;
    put_bytes(b"x'", text)?;
    put_bytes(digits.as_bytes(), text)?;
    put_bytes(b"'", text)
}

fn put_number(n: i64, text: &mut Vec<u8>) -> Result<(), Memory>
    ensures { OnOk result (text.new.items ≡ text.old.items ++ signed_decimal n) }
{
    let alloc = *text.allocator();
    let digits = n.to_string(alloc)?;
    put_bytes(digits.as_bytes(), text)
}

/// Appends a value.
fn put_datum(x: &Datum, text: &mut Vec<u8>) -> Result<(), Memory>
    ensures { OnOk result (text.new.items ≡ text.old.items ++ datum_text x.now) }
{
    match x {
        Datum::Int(n) => put_number(*n, text),
        Datum::Text(value) => put_text(value.as_bytes(), text),
        Datum::Bytes(value) => put_hex(value.as_slice(), text),
        Datum::Bool(true) => put_bytes(b"true", text),
        Datum::Bool(false) => put_bytes(b"false", text),
        Datum::Null => put_bytes(b"NULL", text),
    }
}

fn put_next(x: &Datum, text: &mut Vec<u8>) -> Result<(), Memory>
    ensures { OnOk result (text.new.items ≡ text.old.items ++ (codes ", " ++ datum_text x.now)) }
{
    put_bytes(b", ", text)?;
    put_datum(x, text)
}

/// Appends further values, each after a comma.
fn put_more(values: &[Datum], text: &mut Vec<u8>) -> Result<(), Memory>
    ensures { OnOk result (text.new.items ≡ text.old.items ++ more_text values.now) }
{
    for value in values {
        put_next(value, text)?;
    }
    Ok(())
}

fn put_values(values: &[Datum], text: &mut Vec<u8>) -> Result<(), Memory>
    ensures { OnOk result (text.new.items ≡ text.old.items ++ values_text values.now) }
{
    match values.split_first() {
        None => Ok(()),
        Some((first, others)) => {
            put_datum(first, text)?;
            put_more(others, text)
        }
    }
}

/// Appends the line of a row.
#[tactic(auto, unfolding(crate::specs::Texts::row_text))]
fn put_row(row: &Row, text: &mut Vec<u8>) -> Result<(), Memory>
    ensures { OnOk result (text.new.items ≡ text.old.items ++ row_text row.now) }
{
    put_bytes(b"  (", text)?;
    put_values(row.as_slice(), text)?;
    put_bytes(b")\n", text)
}

/// Appends the lines of rows.
pub fn put_rows(rows: &[Row], text: &mut Vec<u8>) -> Result<(), Memory>
    ensures { OnOk result (text.new.items ≡ text.old.items ++ rows_text rows.now) }
{
    for row in rows {
        put_row(row, text)?;
    }
    Ok(())
}
