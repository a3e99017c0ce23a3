#![tactic(auto, using(crate::proofs::Values::values), unfolding(paper::specs::Answer::and_then))]

// A value by the entry's place and a column number. The whole entry is read first, so a fault in any column refuses.
ghost use Rattle.std.specs.Prelude.{◌≡◌, ◌+◌, ◌^◌, ◌<◌, length};
ghost use Rattle.cell.specs.Local.{value_at, moved};
ghost use Rattle.cell.specs.ByColumn.{block_at, column_at, HasBlock, HasColumn};
ghost use Rattle.cell.specs.PaperValue.{paper_value, paper_asked};

use crate::inner::columns::Columns;
use crate::inner::framing::frame;
use crate::inner::{counted, local_body};
use crate::tag::Tag;
use field::inner::u64_at;
use paper::Refusal;
use std::num::f64_from_bits_with_nan;

// What stands in a column. A float's pattern stands beside it, since a NaN does not tell its own; a text and a vector are a
// place in the caller's slice, then the byte length or the dimension: C is answered a place, and no slice.
#[derive(Clone, Copy)]
pub enum Value {
    Null,
    Integer(i64),
    Real(f64, u64),
    Bool(bool),
    Text(usize, usize),
    Vector(usize, usize),
}

// The value of the block at `at`, which was read; `body` starts at place `shift` of the caller's slice.
fn value_block(body: &[u8], at: usize, shift: usize) -> Value
    requires there { HasBlock body.now at }
    requires fits { shift + length body.now < 2 ^ 63 }
    ensures { paper_value result ≡ moved shift (block_at body.now at) }
{
    let next = at + 1;
    match Tag::try_from(body[at]).unwrap() {
        Tag::Integer => {
            let (v, _) = varint::read(body, next).unwrap();
            Value::Integer(v)
        }
        Tag::Real => {
            let bits = u64_at(&body[next..]);
            Value::Real(f64_from_bits_with_nan(bits), bits)
        }
        Tag::Text => {
            let (start, len) = counted::<1>(body, next).unwrap();
            Value::Text(shift + start, len)
        }
        Tag::Bool => Value::Bool(body[next] != 0),
        Tag::Vector => {
            let (start, dim) = counted::<4>(body, next).unwrap();
            Value::Vector(shift + start, dim)
        }
    }
}

// The value of one of the columns, all of which were read.
fn column_block(columns: Columns, column: usize, shift: usize) -> Value
    requires there { HasColumn columns column }
    requires fits { shift + length columns.body.now < 2 ^ 63 }
    ensures { paper_value result ≡ moved shift (column_at columns.entry column) }
{
    if columns.is_null(column) {
        return Value::Null;
    }
    let at = columns.walk(column).unwrap();
    value_block(columns.body, at, shift)
}

// The value of column `column`, counted from 0, of the entry at `pos`: the entry's refusals, then 12.
#[tactic(auto, using(crate::proofs::Values::values), unfolding(crate::specs::Local::value_from, paper::specs::Answer::and_then, paper::specs::Answer::pick))]
pub fn column_value(buf: &[u8], pos: usize, column: usize) -> Result<Value, Refusal>
    ensures { paper_asked result ≡ value_at buf.now pos column }
{
    let s = buf.get(pos..).ok_or(Refusal::VarintPastEnd)?;
    let body = frame(s)?;
    let columns = local_body(&s[body.at..body.end])?.columns;
    if columns.count <= column {
        return Err(Refusal::AboveCount);
    }
    Ok(column_block(columns, column, pos + body.at))
}
