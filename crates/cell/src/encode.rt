// Writing a local entry from its value list: the port of `Cell::encode`.
ghost use Rattle.std.specs.Prelude.{◌≡◌, ◌+◌, ◌^◌, ◌<◌, ◌≤◌, ◌++◌, length, take, drop, ◌==◌, nat_lt, true, IfSome, MatchResult};
ghost use Rattle.paper.specs.Answer.{gives, refuses, answer_of, over, pick, put, size_of};
ghost use Rattle.paper.specs.Refusal.{number};
ghost use Rattle.varint.specs.Leb.{leb_bytes};
ghost use Rattle.utf8.specs.Ascii.{Plain};
ghost use Rattle.cell.specs.Block.{bitmap_bytes};
ghost use Rattle.cell.specs.Written.{block_bytes, encoded, write_cell};
ghost use Rattle.cell.specs.ValueList.{value_list};
ghost use Rattle.cell.specs.Tag.{tag_byte};
ghost use Rattle.cell.specs.ColumnKind.{kind_byte, Kinds};
ghost use Rattle.cell.specs.Listing.{used, held, payload, block_len, kind_bits, kind_map, Judged, Common, largest, blocks_len, head_of};

use crate::Kind;
use crate::inner::columns::bitmap_bytes;
use crate::tag::Tag;
use paper::Refusal;

// The kinds of a value list that are no tags: a `Value::Null` inside a value, and a null. As bytes, since the quick reading compares bytes.
const INNER_NULL: u8 = 5;

const NULL: u8 = 255;

// The largest value list: columns, and bytes of data.
const MAX_COLUMNS: usize = 65536;

const MAX_DATA: usize = 16777216;

#[derive(Clone, Copy, PartialEq, Eq)]
enum ColumnKind {
    Value(Tag),
    InnerNull,
    Null,
}

impl TryFrom<u8> for ColumnKind {
    type Error = Refusal;

    ghost try_from_gives = { Kinds };

    fn try_from(byte: u8) -> Result<ColumnKind, Refusal> {
        if let Ok(tag) = Tag::try_from(byte) {
            return Ok(ColumnKind::Value(tag));
        }
        match byte {
            INNER_NULL => Ok(ColumnKind::InnerNull),
            NULL => Ok(ColumnKind::Null),
            _ => Err(Refusal::BadValueList),
        }
    }
}

// The data bytes that a value takes.
#[tactic(auto, unfolding(crate::specs::Listing::used, paper::specs::Answer::pick))]
fn data_used(tag: Tag, word: u64) -> usize
    requires { used (tag_byte tag) word < 2 ^ 64 }
    ensures { result ≡ used (tag_byte tag) word }
{
    match tag {
        Tag::Text => word as usize,
        Tag::Vector => 4 * word as usize,
        Tag::Integer | Tag::Real | Tag::Bool => 0,
    }
}

// The bytes of a varint, with their bound.
#[tactic(auto, using(crate::proofs::Judging::len_most))]
fn varint_len(value: u64) -> usize
    ensures { (result ≡ length (leb_bytes value)) × (result ≤ 10) }
{
    varint::inner::len_by_digits(value)
}

// ---- the first reading: each column is judged and measured

impl ColumnKind {
    // The data bytes that a column takes, of those that are left, and the length of its value block.
    #[inline(always)]
    #[tactic(auto, unfolding(crate::specs::ValueList::item, crate::specs::Listing::held, crate::specs::Listing::used, crate::specs::Listing::block_len, paper::specs::Answer::pick, paper::specs::Answer::and_then))]
    fn measure(self, word: u64, rest: &[u8]) -> Result<(usize, usize), Refusal>
        ensures { Judged (kind_byte self) word rest.now result }
    {
        match self {
            ColumnKind::Value(Tag::Integer) => Ok((
                0,
                1 + varint_len(varint::inner::zigzag_bits(word)),
            )),
            ColumnKind::Value(Tag::Real) => Ok((0, 9)),
            ColumnKind::Value(Tag::Text) => {
                let size = word as usize;
                if rest.len() < size {
                    return Err(Refusal::BadValueList);
                }
                utf8::check(&rest[..size])?;
                Ok((size, 1 + varint_len(word) + size))
            }
            ColumnKind::Value(Tag::Bool) => {
                if 1 < word {
                    return Err(Refusal::BadValueList);
                }
                Ok((0, 2))
            }
            ColumnKind::Value(Tag::Vector) => {
                let dimension = word as usize;
                if rest.len() / 4 < dimension {
                    return Err(Refusal::BadValueList);
                }
                let size = 4 * dimension;
                Ok((size, 1 + varint_len(word) + size))
            }
            ColumnKind::InnerNull => Err(Refusal::NullInValue),
            ColumnKind::Null => {
                if word != 0 {
                    return Err(Refusal::BadValueList);
                }
                Ok((0, 0))
            }
        }
    }
}

// ---- the same, quick: no jump hangs on a column's kind, so that nulls at random are not guessed wrong. Each test of a kind is
// a function of its own, which is laid out as a choice between two numbers.

// One value where the kind is this one, another elsewhere.
#[tactic(auto, unfolding(paper::specs::Answer::pick))]
fn for_kind(kind: u8, wanted: u8, value: u64, other: u64) -> u64
    ensures { result ≡ pick (kind == wanted) value other }
{
    if kind == wanted { value } else { other }
}

// A null, or a kind before the vector.
fn is_common(kind: u8) -> bool
    ensures { result ≡ true → Common kind }
{
    kind.wrapping_add(1) < 5
}

// The largest word of a good column, where so many bytes of data are left.
#[tactic(auto, unfolding(crate::specs::Listing::largest))]
fn largest_word(kind: u8, left: usize) -> u64
    ensures { result ≡ largest kind left }
{
    let text = for_kind(kind, Tag::Text as u8, left as u64, u64::MAX);
    for_kind(kind, NULL, 0, for_kind(kind, Tag::Bool as u8, 1, text))
}

// The tag, and the first byte behind it.
#[tactic(auto, unfolding(paper::specs::Answer::pick))]
fn first_bytes(kind: u8) -> usize
    ensures { (result ≡ pick (nat_lt kind 4) 2 0) × (result ≤ 2) }
{
    if kind < 4 { 2 } else { 0 }
}

// A number of eight bytes, as many as a real has.
const AS_LONG_AS_A_REAL: u64 = 0x2_0000_0000_0000;

// As `block_len`, for a common kind. The first byte of a number is counted with the tag.
#[tactic(auto, using(crate::proofs::QuickMeasuring::quickly))]
fn quick_len(kind: u8, word: u64) -> usize
    requires { Common kind × (used kind word ≤ 16777216) }
    ensures { result ≡ block_len kind word }
{
    let text = for_kind(kind, Tag::Text as u8, word, 0);
    let real = for_kind(kind, Tag::Real as u8, AS_LONG_AS_A_REAL, text);
    let number = for_kind(
        kind,
        Tag::Integer as u8,
        varint::inner::zigzag_bits(word),
        real,
    );
    first_bytes(kind) + (varint_len(number) - 1) + text as usize
}

// ---- writers: each writes its bytes from the start of an output that has room, and answers how many

// Byte by byte: `copy_from_slice` of a length that is not known beforehand is a call of C's `memmove`, and the archive asks for no library.
#[tactic(auto, using(crate::proofs::Placing::storing))]
fn copy_all(out: &mut [u8], src: &[u8])
    requires { length src.now ≤ length out.old }
    ensures { out.new ≡ over out.old src.now }
{
    for (i, byte) in src.iter().enumerate() {
        out[i] = *byte;
    }
}

// The first eight bytes, as one word: nothing is asked of where the two lie.
fn copy_word(out: &mut [u8], src: &[u8])
    requires { (8 ≤ length out.old) × (8 ≤ length src.now) }
    ensures { out.new ≡ take 8 src.now ++ drop 8 out.old }
{
    field::inner::put_u64(out, field::inner::u64_at(src));
}

// Names and codes are short, and their lengths cannot be guessed: eight to sixteen bytes are copied by their first eight and their last
// eight, which may meet.
fn copy(out: &mut [u8], src: &[u8])
    requires { length src.now ≤ length out.old }
    ensures { out.new ≡ over out.old src.now }
{
    let n = src.len();
    if 8 <= n && n <= 16 {
        copy_word(out, src);
        copy_word(&mut out[n - 8..n], &src[n - 8..]);
    } else {
        copy_all(out, src);
    }
}

// A number, and bytes behind it.
#[tactic(auto, using(crate::proofs::Placing::then_over))]
fn put_counted(out: &mut [u8], count: u64, src: &[u8]) -> usize
    requires { length (leb_bytes count) + length src.now ≤ length out.old }
    ensures value { result ≡ length (leb_bytes count) + length src.now }
    ensures out_after { out.new ≡ over out.old (leb_bytes count ++ src.now) }
{
    let n = varint::inner::put_u64(out, count);
    copy(&mut out[n..], src);
    n + src.len()
}

// An integer. Most are short, and their lengths cannot be guessed.
fn put_integer(out: &mut [u8], number: u64) -> usize
    requires { length (leb_bytes number) ≤ length out.old }
    ensures value { result ≡ length (leb_bytes number) }
    ensures out_after { out.new ≡ over out.old (leb_bytes number) }
{
    if number < 0x20_0000 {
        return varint::inner::put_short(out, number);
    }
    varint::inner::put_u64(out, number)
}

// A value block after its tag. Its data starts where what is left does.
#[tactic(auto, using(field::proofs::Storing::length_bytes, crate::proofs::Placing::set_first), unfolding(crate::specs::Listing::payload, paper::specs::Answer::over, crate::specs::Listing::used, paper::specs::Answer::pick))]
fn put_payload(out: &mut [u8], tag: Tag, word: u64, rest: &[u8]) -> usize
    requires data_there { used (tag_byte tag) word ≤ length rest.now }
    requires room { length (payload (tag_byte tag) word rest.now) ≤ length out.old }
    ensures value { result ≡ length (payload (tag_byte tag) word rest.now) }
    ensures out_after { out.new ≡ over out.old (payload (tag_byte tag) word rest.now) }
{
    match tag {
        Tag::Integer => put_integer(out, varint::inner::zigzag_bits(word)),
        Tag::Real => {
            field::inner::put_u64(out, word);
            8
        }
        Tag::Bool => {
            out[0] = u8::from(word == 1);
            1
        }
        Tag::Text | Tag::Vector => put_counted(out, word, &rest[..data_used(tag, word)]),
    }
}

// A value block, tag first. A null has none.
#[tactic(auto, using(crate::proofs::BlockWriting::tag_block, crate::proofs::Placing::first_then, std::proofs::lemmas::Grind::common_steps))]
fn put_block(out: &mut [u8], tag: Tag, word: u64, rest: &[u8]) -> usize
    requires data_there { used (tag_byte tag) word ≤ length rest.now }
    requires room { length (block_bytes (held (tag_byte tag) word rest.now)) ≤ length out.old }
    ensures value { result ≡ length (block_bytes (held (tag_byte tag) word rest.now)) }
    ensures out_after { out.new ≡ over out.old (block_bytes (held (tag_byte tag) word rest.now)) }
{
    out[0] = tag as u8;
    1 + put_payload(&mut out[1..], tag, word, rest)
}

// ---- the null bitmap

// The byte of at most eight columns, the first lowest.
fn null_bits(kinds: &[u8]) -> u8
    requires { length kinds.now ≤ 8 }
    ensures { result ≡ kind_bits kinds.now }
{
    kinds.iter().rev().fold(
        0,
        |byte: u8, kind: &u8| (byte << 1) + u8::from(*kind == NULL),
    )
}

#[tactic(auto, using(crate::proofs::Nulls::nulls), unfolding(crate::specs::Block::bitmap_bytes))]
fn put_bitmap(out: &mut [u8], kinds: &[u8]) -> usize
    requires { bitmap_bytes (length kinds.now) ≤ length out.old }
    ensures value { result ≡ bitmap_bytes (length kinds.now) }
    ensures out_after { out.new ≡ over out.old (kind_map (bitmap_bytes (length kinds.now)) kinds.now) }
{
    let (whole, last) = kinds.as_chunks::<8>();
    for (b, columns) in whole.iter().enumerate() {
        out[b] = null_bits(columns);
    }
    if last.is_empty() {
        return whole.len();
    }
    out[whole.len()] = null_bits(last);
    whole.len() + 1
}

// The kind byte, the rowid's ZigZag number, and the column count.
fn put_head(out: &mut [u8], id: u64, columns: u64) -> usize
    requires { 1 + (length (leb_bytes id) + length (leb_bytes columns)) ≤ length out.old }
    ensures value { result ≡ 1 + (length (leb_bytes id) + length (leb_bytes columns)) }
    ensures out_after { out.new ≡ over out.old (head_of id columns) }
{
    out[0] = Kind::Local as u8;
    let n = 1 + varint::inner::put_u64(&mut out[1..], id);
    n + varint::inner::put_u64(&mut out[n..], columns)
}

// ---- the list as a whole

// A value list of the size that is allowed, with a word for each kind. Each reading and the writing go over kinds and words together: Rattle has no
// `impl Iterator` as a result.
#[derive(Clone, Copy)]
struct ValueList<'a> {
    kinds: &'a [u8],
    words: &'a [[u8; 8]],
    data: &'a [u8],
    ghost one_word_each: { length words.now ≡ length kinds.now },
    ghost few_columns: { length kinds.now ≤ 65536 },
    ghost little_data: { length «data».now ≤ 16777216 },
}

impl<'a> ValueList<'a> {
    ghost use Rattle.cell.specs.Lists.{columns_in, blocks_in, used_in, body_in, GoodList};

    #[tactic(auto, using(crate::proofs::Pairing::numbers_chunks), unfolding(crate::specs::ValueList::value_list, paper::specs::Answer::pick))]
    fn new(kinds: &'a [u8], words: &'a [u8], data: &'a [u8]) -> Result<ValueList<'a>, Refusal>
        ensures { MatchResult result (λ list. value_list kinds.now words.now «data».now ≡ columns_in list) (λ refusal. refuses (number refusal) ≡ value_list kinds.now words.now «data».now) }
    {
        let (words, rest) = words.as_chunks::<8>();
        if !rest.is_empty() {
            return Err(Refusal::WrongSize);
        }
        if MAX_COLUMNS < kinds.len() {
            return Err(Refusal::WrongSize);
        }
        if MAX_COLUMNS < words.len() {
            return Err(Refusal::WrongSize);
        }
        if MAX_DATA < data.len() {
            return Err(Refusal::WrongSize);
        }
        if kinds.len() != words.len() {
            return Err(Refusal::BadValueList);
        }
        Ok(ValueList { kinds, words, data })
    }

    // The value blocks of all columns, column by column.
    #[inline(always)]
    #[tactic(auto, using(crate::proofs::Measuring::measuring))]
    fn plain_blocks(&self) -> Result<usize, Refusal>
        ensures { answer_of result ≡ blocks_len (columns_in self.now) }
    {
        let mut bytes = 0;
        let mut rest = self.data;
        for (kind, word) in self.kinds.iter().zip(self.words) {
            let kind = ColumnKind::try_from(*kind)?;
            let word = u64::from_le_bytes(*word);
            let (size, len) = kind.measure(word, rest)?;
            bytes += len;
            rest = &rest[size..];
        }
        if rest.is_empty() {
            Ok(bytes)
        } else {
            Err(Refusal::BadValueList)
        }
    }

    // The same, where the data is ASCII. None where it is not known.
    #[tactic(auto, using(crate::proofs::QuickMeasuring::quickly))]
    fn quick_blocks(&self) -> Option<usize>
        requires { Plain self.now.«data».now 0 (length self.now.«data».now) }
        ensures { IfSome result (λ bytes. gives bytes ≡ blocks_len (columns_in self.now)) }
    {
        let mut bytes = 0;
        let mut rest = self.data;
        for (kind, word) in self.kinds.iter().zip(self.words) {
            let kind = *kind;
            let word = u64::from_le_bytes(*word);
            if !is_common(kind) {
                return None;
            }
            if largest_word(kind, rest.len()) < word {
                return None;
            }
            bytes += quick_len(kind, word);
            let size = for_kind(kind, Tag::Text as u8, word, 0) as usize;
            rest = &rest[size..];
        }
        if rest.is_empty() { Some(bytes) } else { None }
    }

    // The value blocks of all columns. Where the quick reading does not know, the plain one tells.
    // Laid out in both calls, as `measure` is: a list and a Result go through memory at a call.
    #[inline(always)]
    fn measure_blocks(&self) -> Result<usize, Refusal>
        ensures { answer_of result ≡ blocks_len (columns_in self.now) }
    {
        if utf8::inner::all_ascii(self.data) {
            if let Some(bytes) = self.quick_blocks() {
                return Ok(bytes);
            }
        }
        self.plain_blocks()
    }

    // The length of the body that the list makes with the rowid's ZigZag number.
    #[inline(always)]
    #[tactic(auto, using(crate::proofs::Writing::lists))]
    fn measure(&self, id: u64) -> Result<usize, Refusal>
        ensures { MatchResult result (λ size. GoodList id self.now size) (λ refusal. refuses (number refusal) ≡ columns_in self.now) }
    {
        let blocks = self.measure_blocks()?;
        let head = 1 + (varint_len(id) + varint_len(self.kinds.len() as u64));
        Ok(head + (bitmap_bytes(self.kinds.len()) + blocks))
    }

    // The value blocks of all columns.
    #[tactic(auto, using(crate::proofs::Putting::putting))]
    fn put_blocks(&self, out: &mut [u8])
        requires data_there { used_in self.now ≤ length self.now.«data».now }
        requires room { length (blocks_in self.now) ≤ length out.old }
        ensures { out.new ≡ over out.old (blocks_in self.now) }
    {
        let mut at = 0;
        let mut rest = self.data;
        for (kind, word) in self.kinds.iter().zip(self.words) {
            // A null has no block.
            if let Ok(tag) = Tag::try_from(*kind) {
                let word = u64::from_le_bytes(*word);
                at += put_block(&mut out[at..], tag, word, rest);
                rest = &rest[data_used(tag, word)..];
            }
        }
    }

    // The entry of a good list: its length, the head, the bitmap and the value blocks. It stays a call, so that it has the registers for itself: laid
    // out in `encode`, behind both readings, twenty columns missed their bar of speed.
    #[inline(never)]
    fn put_entry(&self, out: &mut [u8], size: usize, id: u64)
        requires good { GoodList id self.now size }
        requires room { length (leb_bytes size) + size ≤ length out.old }
        ensures { out.new ≡ over out.old (leb_bytes size ++ body_in id self.now) }
    {
        let mut at = varint::inner::put_u64(out, size as u64);
        at += put_head(&mut out[at..], id, self.kinds.len() as u64);
        at += put_bitmap(&mut out[at..], self.kinds);
        self.put_blocks(&mut out[at..]);
    }
}

// Writes the entry of a value list: its kinds, its words of eight bytes each, and its data, as C lends them. A refused write changes no byte.
#[tactic(auto, using(crate::proofs::Writing::calls))]
pub fn encode(
    rowid: i64,
    kinds: &[u8],
    words: &[u8],
    data: &[u8],
    out: &mut [u8],
) -> Result<usize, Refusal>
    ensures result_value { answer_of result ≡ size_of (write_cell rowid kinds.now words.now «data».now (length out.old)) }
    ensures out_after { out.new ≡ put out.old (write_cell rowid kinds.now words.now «data».now (length out.old)) }
{
    let list = ValueList::new(kinds, words, data)?;
    let id = varint::zigzag_encode(rowid);
    let size = list.measure(id)?;
    let bytes = varint_len(size as u64) + size;
    if out.len() < bytes {
        return Err(Refusal::OutputTooShort);
    }
    list.put_entry(out, size, id);
    Ok(bytes)
}

// The length that `encode` would write.
#[tactic(auto, using(crate::proofs::Writing::calls))]
pub fn encoded_len(rowid: i64, kinds: &[u8], words: &[u8], data: &[u8]) -> Result<usize, Refusal>
    ensures { answer_of result ≡ size_of (encoded rowid kinds.now words.now «data».now) }
{
    let list = ValueList::new(kinds, words, data)?;
    let size = list.measure(varint::zigzag_encode(rowid))?;
    Ok(varint_len(size as u64) + size)
}
