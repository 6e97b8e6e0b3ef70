//! What the types of values say of them. The functions that are named `prove_..` are there for the
//! proof alone: each only takes a value apart, so that its callers know what the parts are.
ghost use Rattle.std.specs.Prelude.{◌≡◌, ◌<◌, ◌^◌, length, true};
ghost use Rattle.std.specs.List.{AllByRecursion};
ghost use Rattle.std.specs.Str.{is_utf8};
ghost use Rattle.key_encoding.specs.Coding.{IsSignedWord};
ghost use Rattle.list_laws.specs.Bytes.{AreBytes};
ghost use Rattle.row_codec.specs.RowKeys.{IsValue};
ghost use Rattle.row_codec.specs.RowValues.{IsSized, IsCell};

use row_codec::{Cell, Datum, Row};

fn prove_int_fits(n: i64)
    ensures { IsSignedWord n }
{}

fn prove_bytes_fit(b: &[u8])
    ensures bytes { AreBytes b.now }
    ensures len { length b.now < 2 ^ 64 }
{}

fn prove_text_fits(s: &str)
    ensures text { is_utf8 s.now ≡ true }
{}

fn prove_value_fits(x: &Datum)
    ensures value { IsValue x.now }
    ensures sized { IsSized x.now }
{
    match x {
        Datum::Int(n) => prove_int_fits(*n),
        Datum::Text(text) => {
            prove_bytes_fit(text.as_bytes());
            prove_text_fits(text.as_str());
        }
        Datum::Bytes(bytes) => prove_bytes_fit(bytes.as_slice()),
        Datum::Bool(_) => {}
        Datum::Null => {}
    }
}

#[tactic(auto, using(crate::proofs::Lists::all_more, crate::proofs::Lists::all_end))]
pub(crate) fn prove_values_fit(row: &Row)
    ensures { AllByRecursion IsValue row.now }
{
    for x in row.as_slice() {
        prove_value_fits(x);
    }
}

fn prove_id_fits(id: u32)
    ensures { id < 2 ^ 32 }
{}

fn prove_cell_fits(cell: &Cell)
    ensures { IsCell cell.now }
{
    prove_id_fits(cell.column);
    prove_value_fits(&cell.datum);
}

#[tactic(auto, using(crate::proofs::Lists::all_more, crate::proofs::Lists::all_end))]
pub(crate) fn prove_cells_fit(cells: &[Cell])
    ensures { AllByRecursion IsCell cells.now }
{
    for cell in cells {
        prove_cell_fits(cell);
    }
}
