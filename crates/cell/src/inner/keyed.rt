// What overflow references and interior entries share: the rowid after the kind byte, and the page number at the end.
ghost use Rattle.std.specs.Prelude.{◌≡◌, ◌+◌, ◌<◌, ◌≤◌, length};
ghost use Rattle.cell.specs.Keyed.{keyed_at, page_at, key_of, over_at};
ghost use Rattle.cell.specs.Kind.{kind_byte};
ghost use Rattle.paper.specs.Answer.{answer_of, over};
ghost use Rattle.field.specs.Field.{bytes};
ghost use Rattle.varint.specs.Leb.{leb_bytes};

use crate::Kind;
use field::inner::{put_u32, u32_at};
use paper::Refusal;

// The rowid of a body of this kind, and the place behind it. It is laid out in its callers, since a pair goes through memory at a call.
#[inline(always)]
#[tactic(auto, using(crate::proofs::Keys::keys), unfolding(crate::specs::Keyed::keyed_at, paper::specs::Answer::and_then, paper::specs::Answer::pick))]
pub fn key_of(body: &[u8], kind: Kind) -> Result<(i64, usize), Refusal>
    ensures { answer_of result ≡ keyed_at (kind_byte kind) body.now }
{
    if body.first() != Some(&(kind as u8)) {
        return Err(Refusal::WrongKind);
    }
    let (rowid, taken) = varint::read(body, 1)?;
    Ok((rowid, 1 + taken))
}

// The page number that ends the body.
#[inline(always)]
#[tactic(auto, using(crate::proofs::Keys::page_given), unfolding(crate::specs::Keyed::page_at, paper::specs::Answer::pick))]
pub fn page_at(body: &[u8], at: usize) -> Result<u32, Refusal>
    requires { at ≤ length body.now }
    ensures { answer_of result ≡ page_at body.now at }
{
    match body.len() - at {
        0..=3 => Err(Refusal::EntryCutShort),
        4 => Ok(u32_at(&body[at..])),
        _ => Err(Refusal::BytesLeftOver),
    }
}

// Writes a short body's length, its kind and its rowid, as ZigZag has it, from the start of `out`, which has room. Answers the
// place behind them.
#[tactic(auto, using(crate::proofs::KeyWriting::key_writing))]
pub fn put_key(out: &mut [u8], size: usize, kind: Kind, rowid: u64) -> usize
    requires { (size < 128) × (2 + length (leb_bytes rowid) ≤ length out.old) }
    ensures value { result ≡ 2 + length (leb_bytes rowid) }
    ensures out_after { out.new ≡ over out.old (key_of size (kind_byte kind) rowid) }
{
    out[0] = size as u8;
    out[1] = kind as u8;
    2 + varint::inner::put_u64(&mut out[2..], rowid)
}

// Writes a page number over the last part of an entry, which starts at `at`.
#[tactic(auto, using(crate::proofs::KeyWriting::key_writing))]
pub fn put_page(out: &mut [u8], at: usize, page: u32)
    requires { at + 4 ≤ length out.old }
    ensures { out.new ≡ over_at out.old at (bytes 4 page) }
{
    put_u32(&mut out[at..], page)
}
