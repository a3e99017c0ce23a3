#![tactic(auto, using(crate::proofs::Blocks::blocks), unfolding(paper::specs::Answer::and_then, paper::specs::Answer::pick))]

// The walk over an entry. It is the page check's inner loop. A place counts from the start of the body, as document 01's places do, so
// the body goes with it.
pub mod columns;
pub mod framing;
pub mod keyed;

ghost use Rattle.std.specs.Prelude.{◌≡◌, ◌<◌, ◌≤◌, length};
ghost use Rattle.paper.specs.Answer.{answer_of};
ghost use Rattle.cell.specs.Words.{fixed_end, counted, text_end, vector_end, block_end};
ghost use Rattle.cell.specs.LocalRead.{Locally};

use crate::Kind;
use crate::tag::Tag;
use columns::Columns;
pub use columns::{is_null, walk};
use paper::Refusal;
use varint::inner::{end_at, value_at};

// The end of a field of `size` bytes (7).
fn fixed_end(body: &[u8], at: usize, size: usize) -> Result<usize, Refusal>
    requires { at ≤ length body.now }
    ensures { answer_of result ≡ fixed_end body.now at size }
{
    if body.len() - at < size {
        return Err(Refusal::ValueCutShort);
    }
    Ok(at + size)
}

// A count and what it counts, `UNIT` bytes each (7): where that starts, and the count. It is laid out in its callers, since a pair goes
// through memory at a call.
#[inline(always)]
pub fn counted<const UNIT: usize>(body: &[u8], at: usize) -> Result<(usize, usize), Refusal>
    requires { 0 < UNIT }
    ensures { answer_of result ≡ counted UNIT body.now at }
{
    let (count, taken) = value_at(body, at)?;
    let start = at + taken;
    if (body.len() - start) / UNIT < count as usize {
        return Err(Refusal::ValueCutShort);
    }
    Ok((start, count as usize))
}

// The end of a text: its length and its bytes, and what they are (8).
fn text_end(body: &[u8], at: usize) -> Result<usize, Refusal>
    ensures { answer_of result ≡ text_end body.now at }
{
    let (start, len) = counted::<1>(body, at)?;
    let end = start + len;
    utf8::check(&body[start..end])?;
    Ok(end)
}

// The end of a vector: its dimension, and four bytes for each.
fn vector_end(body: &[u8], at: usize) -> Result<usize, Refusal>
    ensures { answer_of result ≡ vector_end body.now at }
{
    let (start, dim) = counted::<4>(body, at)?;
    Ok(start + 4 * dim)
}

// The end of the value block at `at`.
fn block_end(body: &[u8], at: usize) -> Result<usize, Refusal>
    ensures { answer_of result ≡ block_end body.now at }
{
    if body.len() <= at {
        return Err(Refusal::ValueCutShort);
    }
    let next = at + 1;
    match Tag::try_from(body[at])? {
        Tag::Integer => end_at(body, next),
        Tag::Real => fixed_end(body, next, 8),
        Tag::Text => text_end(body, next),
        Tag::Bool => fixed_end(body, next, 1),
        Tag::Vector => vector_end(body, next),
    }
}

// A local body that reads to its end.
#[derive(Clone, Copy)]
pub struct Local<'a> {
    pub rowid: i64,
    pub columns: Columns<'a>,
}

// A local body, whole: empty (4), its kind (5), its rowid and its column count (1, 2), its columns.
#[tactic(auto, using(crate::proofs::Bodies::bodies), unfolding(paper::specs::Answer::and_then, paper::specs::Answer::pick, crate::specs::Local::local_body, crate::specs::Local::row_of))]
pub fn local_body(body: &[u8]) -> Result<Local<'_>, Refusal>
    ensures { Locally body.now result }
{
    if body.is_empty() {
        return Err(Refusal::NoKind);
    }
    if body[0] != Kind::Local as u8 {
        return Err(Refusal::WrongKind);
    }
    let (rowid, taken) = varint::read(body, 1)?;
    let at = 1 + taken;
    let (count, taken) = value_at(body, at)?;
    let columns = Columns::new(body, count as usize, at + taken)?;
    Ok(Local { rowid, columns })
}
