#![tactic(auto)]

// Cells: the port of cell.rs. One row per cell: an entry is its body's length and its body, and a body starts with a kind byte.
pub mod encode;
pub mod inner;
pub mod tag;
pub mod value;

ghost use Rattle.std.specs.Prelude.{◌≡◌, drop};
ghost use Rattle.paper.specs.Answer.{answer_of};
ghost use Rattle.cell.specs.Entry.{peek_kind, peek_rowid, size_at};
ghost use Rattle.cell.specs.Kind.{Names};
ghost use Rattle.cell.specs.Local.{head_from};
ghost use Rattle.cell.specs.Words.{kind_place};
ghost use Rattle.cell.specs.Paper.{paper_head};

use inner::framing::frame;
use inner::local_body;
use paper::Refusal;
use varint::inner::value_at;

// The kinds of entries, each with its byte: a row, a reference to a row in an overflow chain, a divider.
#[derive(Clone, Copy, PartialEq, Eq)]
pub enum Kind {
    Local = 1,
    Overflow = 2,
    Interior = 3,
}

impl TryFrom<u8> for Kind {
    type Error = Refusal;

    ghost try_from_gives = { Names };

    fn try_from(byte: u8) -> Result<Kind, Refusal> {
        match byte {
            1 => Ok(Kind::Local),
            2 => Ok(Kind::Overflow),
            3 => Ok(Kind::Interior),
            _ => Err(Refusal::WrongKind),
        }
    }
}

// What an entry says before its values: its rowid, how many columns it has, how many bytes it takes.
#[derive(Clone, Copy)]
pub struct Head {
    pub rowid: i64,
    pub columns: usize,
    pub bytes: usize,
}

// The place of the kind byte of the entry at `pos`, behind its length (4).
#[tactic(auto, using(crate::proofs::Peeks::peeks), unfolding(paper::specs::Answer::and_then, paper::specs::Answer::pick))]
fn kind_place(buf: &[u8], pos: usize) -> Result<usize, Refusal>
    ensures { answer_of result ≡ kind_place buf.now pos }
{
    let (_, taken) = value_at(buf, pos)?;
    if buf.len() <= pos + taken {
        return Err(Refusal::NoKind);
    }
    Ok(pos + taken)
}

// The rowid of an entry of any kind, skipping the rest.
#[tactic(auto, using(crate::proofs::Peeks::peeks), unfolding(paper::specs::Answer::and_then, crate::specs::Entry::rowid_at))]
pub fn peek_rowid(buf: &[u8], pos: usize) -> Result<i64, Refusal>
    ensures { answer_of result ≡ peek_rowid (drop pos buf.now) }
{
    let kind = kind_place(buf, pos)?;
    let (rowid, _) = varint::read(buf, kind + 1)?;
    Ok(rowid)
}

// The bytes of the entry, its length varint among them, wherever its body ends (3 past the largest number).
#[tactic(auto, using(crate::proofs::Peeks::peeks, varint::proofs::Places::read_as_u64), unfolding(paper::specs::Answer::and_then, paper::specs::Answer::pick, varint::specs::Leb::read_u64, crate::specs::Entry::size_at))]
pub fn encoded_size_at(buf: &[u8], pos: usize) -> Result<usize, Refusal>
    ensures { answer_of result ≡ size_at (drop pos buf.now) }
{
    let (size, taken) = varint::read::<u64>(buf, pos)?;
    taken
        .checked_add(size as usize)
        .ok_or(Refusal::EntryPastEnd)
}

// The kind byte, whatever it is.
#[tactic(auto, using(crate::proofs::Peeks::peeks), unfolding(paper::specs::Answer::and_then))]
pub fn peek_kind(buf: &[u8], pos: usize) -> Result<u8, Refusal>
    ensures { answer_of result ≡ peek_kind (drop pos buf.now) }
{
    let kind = kind_place(buf, pos)?;
    Ok(buf[kind])
}

// Reads the local entry at `pos`: its head, or the first refusal of its length, frame, kind, rowid, columns and end.
#[tactic(auto, using(crate::proofs::Heads::heads), unfolding(crate::specs::Local::head_from, crate::specs::Local::cell_from, crate::specs::Entry::entry, paper::specs::Answer::and_then))]
pub fn decode(buf: &[u8], pos: usize) -> Result<Head, Refusal>
    ensures { paper_head result ≡ head_from (drop pos buf.now) }
{
    let s = buf.get(pos..).ok_or(Refusal::VarintPastEnd)?;
    let body = frame(s)?;
    let row = local_body(&s[body.at..body.end])?;
    Ok(Head {
        rowid: row.rowid,
        columns: row.columns.count,
        bytes: body.end,
    })
}
