// The calls of data/references.txt, in the order of rust/differential/src/references.rs: overflow references, paged entries and interior cells.
use crate::calls::{Calls, Layer};
use crate::fault::Fault;
use crate::fields::Fields;
use seremonek::interior::{smk_interior_cell_decode, smk_interior_cell_encode};
use seremonek::reference::{smk_entry_decode, smk_overflow_decode, smk_overflow_encode};

pub struct References;

impl Layer for References {
    const FILE: &'static str = "references.txt";

    fn calls<C: Calls>(calls: &mut C) -> Result<(), C::Stop> {
        calls.call(
            "smk_overflow_decode",
            |fields| fields.read(smk_overflow_decode),
        )?;
        calls.call("smk_overflow_encode", overflow_encode)?;
        calls.call("smk_entry_decode", |fields| fields.read(smk_entry_decode))?;
        calls.call(
            "smk_interior_cell_decode",
            |fields| fields.read(smk_interior_cell_decode),
        )?;
        calls.call("smk_interior_cell_encode", interior_encode)
    }
}

// rowid, total, first page, out
fn overflow_encode(mut fields: Fields<'_>) -> Result<(), Fault> {
    let rowid = fields.signed();
    let total = fields.number();
    let first = fields.page_number()?;
    fields.written(|out, answer| smk_overflow_encode(rowid, total, first, out, answer))
}

// divider, child page, out
fn interior_encode(mut fields: Fields<'_>) -> Result<(), Fault> {
    let divider = fields.signed();
    let child = fields.page_number()?;
    fields.written(|out, answer| smk_interior_cell_encode(divider, child, out, answer))
}
