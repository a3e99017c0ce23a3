#![tactic(auto)]

// Interior pages: the port of interior_page.rs. Here stands the divider cell; the page stands on it.
ghost use Rattle.std.specs.Prelude.{◌≡◌, IfSome, length, drop};
ghost use Rattle.paper.specs.Answer.{answer_of, told, put, size_of};
ghost use Rattle.interior_page.specs.InteriorCells.{interior_body, interior_from, write_interior};
ghost use Rattle.interior_page.specs.Paper.{interior_values, paper_interior};

use cell::Kind;
use cell::inner::framing::frame;
use cell::inner::keyed::{key_of, page_at, put_key, put_page};
use field::inner::u32_at;
use paper::Refusal;
use varint::inner::in_word;

// One divider: rowids up to `divider_rowid` live under `child_page`.
#[derive(Clone, Copy)]
pub struct InteriorCell {
    pub divider_rowid: i64,
    pub child_page: u32,
}

#[inline(always)]
#[tactic(auto, using(crate::proofs::Dividers::dividers), unfolding(crate::specs::InteriorCells::interior_body, paper::specs::Answer::and_then))]
fn divider_body(body: &[u8]) -> Result<InteriorCell, Refusal>
    ensures { told interior_values result ≡ interior_body body.now }
{
    let (divider_rowid, at) = key_of(body, Kind::Interior)?;
    let child_page = page_at(body, at)?;
    Ok(InteriorCell {
        divider_rowid,
        child_page,
    })
}

// The plain way: the frame, then the body. It is laid out where it is gone, and makes hardly a call (one for a length of several bytes), so that
// the quick way saves no registers for it. A reference's is alike, but stays a call; one function for both would have to say what the body's
// reader promises, and be longer than the two.
#[inline(always)]
#[tactic(auto, using(crate::proofs::Dividers::divider_entries), unfolding(crate::specs::InteriorCells::interior_from))]
fn plain_from(s: &[u8]) -> Result<(InteriorCell, usize), Refusal>
    ensures { paper_interior result ≡ interior_from s.now }
{
    let framed = frame(s)?;
    let cell = divider_body(&s[framed.at..framed.end])?;
    Ok((cell, framed.end))
}

// Where the longest cell has room and the divider ends within a word, each part is read at its place and no byte of the divider is
// branched on. Anything else it leaves to the plain way. Both this and `decode` are laid out in their callers, since their answers
// would go through memory.
#[inline(always)]
fn quick_from(s: &[u8]) -> Option<(InteriorCell, usize)>
    ensures { IfSome result (λ found. paper_interior (Ok found) ≡ interior_from s.now) }
{
    if s.len() < 16 {
        return None;
    }
    let (divider, taken) = in_word(&s[2..])?;
    let place = 2 + taken;
    if s[0] != (3 + place) as u8 {
        return None;
    }
    if s[1] != Kind::Interior as u8 {
        return None;
    }
    Some((
        InteriorCell {
            divider_rowid: varint::zigzag_decode(divider),
            child_page: u32_at(&s[place..]),
        },
        4 + place,
    ))
}

// As a reference is read, which see.
#[inline(always)]
fn decode_from(s: &[u8]) -> Result<(InteriorCell, usize), Refusal>
    ensures { paper_interior result ≡ interior_from s.now }
{
    match quick_from(s) {
        Some(found) => Ok(found),
        None => plain_from(s),
    }
}

// Reads the interior cell at `pos`.
#[inline(always)]
#[tactic(auto, using(crate::proofs::Dividers::divider_entries), unfolding(crate::specs::InteriorCells::interior_from))]
pub fn decode(buf: &[u8], pos: usize) -> Result<(InteriorCell, usize), Refusal>
    ensures { paper_interior result ≡ interior_from (drop pos buf.now) }
{
    if buf.len() <= pos {
        return Err(Refusal::VarintPastEnd);
    }
    decode_from(&buf[pos..])
}

// Writes the interior cell; at most 16 bytes. An output that is too short is refused and keeps every byte.
#[tactic(auto, using(crate::proofs::DividerWriting::divider_writing))]
pub fn encode(cell: InteriorCell, out: &mut [u8]) -> Result<usize, Refusal>
    ensures result_value { answer_of result ≡ size_of (write_interior cell.divider_rowid cell.child_page (length out.old)) }
    ensures out_after { out.new ≡ put out.old (write_interior cell.divider_rowid cell.child_page (length out.old)) }
{
    let divider = varint::zigzag_encode(cell.divider_rowid);
    let size = 5 + varint::len(divider);
    if out.len() < 1 + size {
        return Err(Refusal::OutputTooShort);
    }
    let place = put_key(out, size, Kind::Interior, divider);
    put_page(out, place, cell.child_page);
    Ok(1 + size)
}
