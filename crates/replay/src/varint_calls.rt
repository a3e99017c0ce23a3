// The calls of data/varint.txt, in the order of rust/differential/src/varint.rs.
use crate::calls::{Calls, Layer};
use crate::fault::Fault;
use crate::fields::Fields;
use seremonek::number::{
    smk_i64_len, smk_read_i64, smk_read_u64, smk_u64_len, smk_write_i64, smk_write_u64,
    smk_zigzag_decode, smk_zigzag_encode,
};

pub struct Varint;

impl Layer for Varint {
    const FILE: &'static str = "varint.txt";

    fn calls<C: Calls>(calls: &mut C) -> Result<(), C::Stop> {
        calls.call("smk_read_u64", |fields| fields.read(smk_read_u64))?;
        calls.call("smk_read_i64", |fields| fields.read(smk_read_i64))?;
        calls.call("smk_write_u64", write_u64)?;
        calls.call("smk_write_i64", write_i64)?;
        calls.call("smk_u64_len", |fields| fields.direct(smk_u64_len))?;
        calls.call("smk_i64_len", |fields| {
            fields.direct(|bits| smk_i64_len(bits.cast_signed()))
        })?;
        calls.call("smk_zigzag_encode", |fields| {
            fields.direct(|bits| smk_zigzag_encode(bits.cast_signed()))
        })?;
        calls.call("smk_zigzag_decode", |fields| {
            fields.direct(|bits| smk_zigzag_decode(bits).cast_unsigned())
        })
    }
}

// value, out. A function for both, over how the value is read, would be longer than the two.
fn write_u64(mut fields: Fields<'_>) -> Result<(), Fault> {
    let value = fields.number();
    fields.written(|out, answer| smk_write_u64(value, out, answer))
}

// value, out
fn write_i64(mut fields: Fields<'_>) -> Result<(), Fault> {
    let value = fields.signed();
    fields.written(|out, answer| smk_write_i64(value, out, answer))
}
