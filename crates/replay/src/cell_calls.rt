// The calls of data/cell.txt, in the order of rust/differential/src/cell.rs.
use crate::answers::ROOM;
use crate::calls::{Calls, Layer};
use crate::fault::Fault;
use crate::fields::Fields;
use seremonek::entry::{
    smk_cell_decode, smk_cell_encode, smk_cell_encoded_len, smk_cell_value, smk_encoded_size_at,
    smk_peek_kind, smk_peek_rowid,
};

pub struct Cell;

impl Layer for Cell {
    const FILE: &'static str = "cell.txt";

    fn calls<C: Calls>(calls: &mut C) -> Result<(), C::Stop> {
        calls.call("smk_peek_kind", |fields| fields.read(smk_peek_kind))?;
        calls.call("smk_peek_rowid", |fields| fields.read(smk_peek_rowid))?;
        calls.call(
            "smk_encoded_size_at",
            |fields| fields.read(smk_encoded_size_at),
        )?;
        calls.call("smk_cell_decode", |fields| fields.read(smk_cell_decode))?;
        calls.call("smk_cell_value", value)?;
        calls.call("smk_cell_encode", encode)?;
        calls.call("smk_cell_encoded_len", encoded_len)
    }
}

// buf, pos, column
fn value(mut fields: Fields<'_>) -> Result<(), Fault> {
    let mut room = [0u8; ROOM];
    let buf = fields.bytes(&mut room)?;
    let pos = fields.number() as usize;
    let column = fields.number();
    fields.answered(|answer| smk_cell_value(buf, pos, column, answer))
}

// rowid, kinds, words, data. Three rooms and not an array of three: lending the parts of such an array by a pattern gets no proof.
fn with_columns<F: FnOnce(Fields<'_>, i64, &[u8], &[u8], &[u8]) -> Result<(), Fault>>(
    mut fields: Fields<'_>,
    replayed: F,
) -> Result<(), Fault>
    requires { F.IsAlwaysCallable replayed }
{
    let mut kinds = [0u8; ROOM];
    let mut words = [0u8; ROOM];
    let mut bytes = [0u8; ROOM];
    let rowid = fields.signed();
    let kinds = fields.bytes(&mut kinds)?;
    let words = fields.bytes(&mut words)?;
    let bytes = fields.bytes(&mut bytes)?;
    replayed(fields, rowid, kinds, words, bytes)
}

// rowid, kinds, words, data, out
fn encode(fields: Fields<'_>) -> Result<(), Fault> {
    with_columns(fields, |fields, rowid, kinds, words, bytes| {
        fields.written(|out, answer| smk_cell_encode(rowid, kinds, words, bytes, out, answer))
    })
}

// rowid, kinds, words, data
fn encoded_len(fields: Fields<'_>) -> Result<(), Fault> {
    with_columns(fields, |fields, rowid, kinds, words, bytes| {
        fields.answered(|answer| smk_cell_encoded_len(rowid, kinds, words, bytes, answer))
    })
}
