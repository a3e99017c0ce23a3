// The columns of a local body: a bitmap that says which are null, and a value block for each that is not.
ghost use Rattle.std.specs.Prelude.{◌≡◌, ◌+◌, ◌/◌, ◌<◌, ◌≤◌, length};
ghost use Rattle.paper.specs.Answer.{answer_of};
ghost use Rattle.cell.specs.Block.{is_null, bitmap_bytes};
ghost use Rattle.cell.specs.Words.{column_end, columns_end};

use super::block_end;
use paper::Refusal;

// The bytes of a bitmap: eight columns to a byte.
#[tactic(auto, unfolding(crate::specs::Block::bitmap_bytes))]
pub fn bitmap_bytes(columns: usize) -> usize
    ensures { (result ≡ bitmap_bytes columns) × (result ≤ columns) }
{
    columns.div_ceil(8)
}

// `is_null` and `walk` take the parts of `Columns`, since they ask less of their callers than the type does, and may not ask more.

// Whether column `c` is null, by the bitmap at `map`.
#[tactic(auto, unfolding(crate::specs::Block::is_null))]
pub fn is_null(body: &[u8], map: usize, c: usize) -> bool
    requires { map + c / 8 < length body.now }
    ensures { result ≡ is_null body.now map c }
{
    (body[map + c / 8] >> (c % 8)) % 2 == 1
}

// The end of column `c`, which stands at `at`.
#[tactic(auto, unfolding(crate::specs::Words::column_end, crate::specs::Words::block_end, paper::specs::Answer::and_then, paper::specs::Answer::pick))]
fn column_end(body: &[u8], map: usize, c: usize, at: usize) -> Result<usize, Refusal>
    requires { map + c / 8 < length body.now }
    ensures { answer_of result ≡ column_end body.now map c at }
{
    if is_null(body, map, c) {
        return Ok(at);
    }
    block_end(body, at)
}

// The end of the first `columns` columns, whose bitmap stands at `map` and whose value blocks start at `start`.
#[tactic(auto, using(crate::proofs::Columns::walks), unfolding(paper::specs::Answer::and_then, crate::specs::Block::bitmap_bytes))]
pub fn walk(body: &[u8], map: usize, start: usize, columns: usize) -> Result<usize, Refusal>
    requires { map + bitmap_bytes columns ≤ length body.now }
    ensures { answer_of result ≡ columns_end columns 0 map body.now start }
{
    let mut at = start;
    for c in 0..columns {
        at = column_end(body, map, c, at)?;
    }
    Ok(at)
}

// The columns of a body: how many there are, and where their bitmap stands, which lies inside the body.
#[derive(Clone, Copy)]
pub struct Columns<'a> {
    pub body: &'a [u8],
    pub count: usize,
    pub map: usize,
    pub ghost room: { map + bitmap_bytes count ≤ length body.now },
}

impl<'a> Columns<'a> {
    ghost use Rattle.cell.specs.LocalRead.{ReadsOr};

    // `count` columns, whose bitmap stands at `map`: it has room (6), and behind the last one nothing is left over (10).
    #[tactic(auto, using(crate::proofs::Bodies::blocks_all), unfolding(crate::specs::Local::blocks_at, crate::specs::Words::columns_end, paper::specs::Answer::and_then, paper::specs::Answer::pick))]
    pub fn new(body: &'a [u8], count: usize, map: usize) -> Result<Columns<'a>, Refusal>
        requires { map ≤ length body.now }
        ensures { ReadsOr count map body.now result }
    {
        if body.len() - map < bitmap_bytes(count) {
            return Err(Refusal::EntryCutShort);
        }
        let columns = Columns { body, count, map };
        if columns.walk(count)? != body.len() {
            return Err(Refusal::BytesLeftOver);
        }
        Ok(columns)
    }

    // Whether column `c` is null.
    #[tactic(auto, unfolding(crate::specs::Block::bitmap_bytes))]
    pub fn is_null(self, c: usize) -> bool
        requires { c < self.count }
        ensures { result ≡ is_null self.entry.body.now self.entry.map c }
    {
        is_null(self.body, self.map, c)
    }

    // The end of the first `n` columns.
    #[tactic(auto, unfolding(crate::specs::Block::bitmap_bytes))]
    pub fn walk(self, n: usize) -> Result<usize, Refusal>
        requires { n ≤ self.count }
        ensures { answer_of result ≡ columns_end n 0 self.entry.map self.entry.body.now (self.entry.map + bitmap_bytes self.entry.count) }
    {
        walk(self.body, self.map, self.map + bitmap_bytes(self.count), n)
    }
}
