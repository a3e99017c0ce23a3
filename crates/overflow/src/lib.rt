#![tactic(auto)]

// Overflow: the first half of overflow.rs. The reference that stands on a page for a row kept in a chain, and the paged entry,
// which is a local cell or such a reference.
ghost use Rattle.std.specs.Prelude.{◌≡◌, IfSome, length, drop};
ghost use Rattle.paper.specs.Answer.{answer_of, told, put, size_of};
ghost use Rattle.overflow.specs.Reference.{reference_body, reference_from, write_reference};
ghost use Rattle.overflow.specs.Paged.{paged_from};
ghost use Rattle.overflow.specs.Paper.{reference_values, paper_ref, paper_paged};

use cell::inner::framing::frame;
use cell::inner::keyed::{key_of, page_at, put_key, put_page};
use cell::{Head, Kind};
use field::inner::u32_at;
use paper::Refusal;
use varint::inner::{in_word, put_u64};

// The marker that stands in for a cell whose body lives in an overflow chain.
#[derive(Clone, Copy)]
pub struct OverflowRef {
    pub rowid: i64,
    // The bytes that the chain holds.
    pub total_body_len: u64,
    // The first page of the chain.
    pub first_overflow_page: u32,
}

#[tactic(auto, using(crate::proofs::References::references), unfolding(crate::specs::Reference::reference_body, paper::specs::Answer::and_then))]
fn reference_body(body: &[u8]) -> Result<OverflowRef, Refusal>
    ensures { told reference_values result ≡ reference_body body.now }
{
    let (rowid, at) = key_of(body, Kind::Overflow)?;
    let (total_body_len, taken) = varint::read(body, at)?;
    let first_overflow_page = page_at(body, at + taken)?;
    Ok(OverflowRef {
        rowid,
        total_body_len,
        first_overflow_page,
    })
}

// The plain way: the frame, then the body. It is seldom gone, and stays a call, so that the quick way saves no registers for it. An interior
// cell's is alike, but one function for both would have to say what the body's reader promises, and be longer than the two.
#[cold]
#[tactic(auto, using(crate::proofs::References::reference_entries), unfolding(crate::specs::Reference::reference_from))]
fn plain_from(s: &[u8]) -> Result<(OverflowRef, usize), Refusal>
    ensures { paper_ref result ≡ reference_from s.now }
{
    let framed = frame(s)?;
    let reference = reference_body(&s[framed.at..framed.end])?;
    Ok((reference, framed.end))
}

// Where the longest reference has room and each number ends within a word, each part is read at its place and no byte of a number is
// branched on. Anything else it leaves to the plain way. Both this and `decode` are laid out in their callers, since their answers
// would go through memory.
#[inline(always)]
fn quick_from(s: &[u8]) -> Option<(OverflowRef, usize)>
    ensures { IfSome result (λ found. paper_ref (Ok found) ≡ reference_from s.now) }
{
    if s.len() < 26 {
        return None;
    }
    let (rowid, taken) = in_word(&s[2..])?;
    let second = 2 + taken;
    let (total_body_len, taken) = in_word(&s[second..])?;
    let place = second + taken;
    if s[0] != (3 + place) as u8 {
        return None;
    }
    if s[1] != Kind::Overflow as u8 {
        return None;
    }
    Some((
        OverflowRef {
            rowid: varint::zigzag_decode(rowid),
            total_body_len,
            first_overflow_page: u32_at(&s[place..]),
        },
        4 + place,
    ))
}

// An interior cell is read alike: a trait over the two, with their definitions and both ways, would be longer than these few lines.
#[inline(always)]
fn decode_from(s: &[u8]) -> Result<(OverflowRef, usize), Refusal>
    ensures { paper_ref result ≡ reference_from s.now }
{
    match quick_from(s) {
        Some(found) => Ok(found),
        None => plain_from(s),
    }
}

// Reads the overflow reference at `pos`.
#[inline(always)]
#[tactic(auto, using(crate::proofs::References::reference_entries), unfolding(crate::specs::Reference::reference_from))]
pub fn decode(buf: &[u8], pos: usize) -> Result<(OverflowRef, usize), Refusal>
    ensures { paper_ref result ≡ reference_from (drop pos buf.now) }
{
    if buf.len() <= pos {
        return Err(Refusal::VarintPastEnd);
    }
    decode_from(&buf[pos..])
}

// An entry of a leaf page, with the bytes it takes.
#[derive(Clone, Copy)]
pub enum PagedEntry {
    Local(Head),
    Overflow(OverflowRef, usize),
}

// Reads the entry at `pos` by its kind.
#[tactic(auto, using(paper::proofs::Laws::told_err), unfolding(crate::specs::Paged::paged_from, crate::specs::Paged::local_paged, crate::specs::Paged::reference_paged, paper::specs::Answer::and_then, paper::specs::Answer::pick))]
pub fn decode_paged(buf: &[u8], pos: usize) -> Result<PagedEntry, Refusal>
    ensures { paper_paged result ≡ paged_from (drop pos buf.now) }
{
    match Kind::try_from(cell::peek_kind(buf, pos)?)? {
        Kind::Local => Ok(PagedEntry::Local(cell::decode(buf, pos)?)),
        Kind::Overflow => {
            let (reference, bytes) = decode(buf, pos)?;
            Ok(PagedEntry::Overflow(reference, bytes))
        }
        Kind::Interior => Err(Refusal::WrongKind),
    }
}

// Writes the reference; at most 26 bytes. An output that is too short is refused and keeps every byte.
#[tactic(auto, using(crate::proofs::RefWriting::ref_writing))]
pub fn encode(reference: OverflowRef, out: &mut [u8]) -> Result<usize, Refusal>
    ensures result_value { answer_of result ≡ size_of (write_reference reference.rowid reference.total_body_len reference.first_overflow_page (length out.old)) }
    ensures out_after { out.new ≡ put out.old (write_reference reference.rowid reference.total_body_len reference.first_overflow_page (length out.old)) }
{
    let rowid = varint::zigzag_encode(reference.rowid);
    let total = reference.total_body_len;
    let size = 5 + varint::len(rowid) + varint::len(total);
    if out.len() < 1 + size {
        return Err(Refusal::OutputTooShort);
    }
    let second = put_key(out, size, Kind::Overflow, rowid);
    let place = second + put_u64(&mut out[second..], total);
    put_page(out, place, reference.first_overflow_page);
    Ok(1 + size)
}
