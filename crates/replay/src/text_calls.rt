// The calls of data/utf8.txt, in the order of rust/differential/src/utf8.rs.
use crate::answers::ROOM;
use crate::calls::{Calls, Layer};
use crate::fault::Fault;
use crate::fields::Fields;
use seremonek::text::smk_utf8_check;

pub struct Utf8;

impl Layer for Utf8 {
    const FILE: &'static str = "utf8.txt";

    fn calls<C: Calls>(calls: &mut C) -> Result<(), C::Stop> {
        calls.call("smk_utf8_check", utf8_check)
    }
}

// bytes
fn utf8_check(mut fields: Fields<'_>) -> Result<(), Fault> {
    let mut room = [0u8; ROOM];
    let bytes = fields.bytes(&mut room)?;
    fields.answered(|_: &mut [u64; 0]| smk_utf8_check(bytes))
}
