// The scan that reads a number, reading by words of eight bytes, and reading for loops in which most numbers are one byte. What asks
// something of its caller stands here.
ghost use Rattle.std.specs.Prelude.{◌≡◌, ◌^◌, ◌<◌, ◌≤◌, length, slice_index};
ghost use Rattle.std.specs.Int.{w64, cast_signed};
ghost use Rattle.paper.specs.Answer.{answer_of, over};
ghost use Rattle.varint.specs.Leb.{read_from, read_u64, end_u64, len_u64, leb_bytes};
ghost use Rattle.varint.specs.Zigzag.{zigzag};
ghost use Rattle.varint.specs.Scan.{Going};
ghost use Rattle.varint.specs.Word.{ClosesUp, InWord};

use crate::MAX_VARINT_BYTES;
use field::inner::u64_at;
use paper::Refusal;

// The number at the start of `s`, from byte `start` on: the bytes before it add up to `sum`. It is laid out, and unrolled, in each
// caller, since its answer goes through memory at a call.
#[inline(always)]
#[tactic(auto, using(crate::proofs::Reading::scanning))]
pub fn scan(s: &[u8], sum: u64, start: usize) -> Result<(u64, usize), Refusal>
    requires { (start ≤ 10) × Going s.now sum start }
    ensures { answer_of result ≡ read_from s.now }
{
    let mut value = sum;
    for i in start..MAX_VARINT_BYTES {
        let byte = *s.get(i).ok_or(Refusal::VarintPastEnd)?;
        // What passes 64 bits is dropped.
        value = value.wrapping_add((byte as u64 % 128) << (7 * i));
        if byte < 128 {
            return Ok((value, i + 1));
        }
    }
    Err(Refusal::VarintTooLong)
}

// The bytes after a first one with its high bit set, apart from the callers, so that one byte is read where it is wanted.
#[inline(never)]
#[tactic(auto, using(crate::proofs::Reading::places))]
fn apart(buf: &[u8], pos: usize, first: u8) -> Result<(u64, usize), Refusal>
    requires { (pos < length buf.now) × ((first ≡ slice_index buf.now pos) × (128 ≤ first)) }
    ensures { answer_of result ≡ read_u64 buf.now pos }
{
    scan(&buf[pos..], first as u64 % 128, 1)
}

// The place behind those bytes: a step of its own beside `apart`, as `end_at` is beside `value_at`, since a pair goes through memory at a
// call. By way of `value_at` an entry's walk took up to 1.2 times as long.
#[inline(never)]
#[tactic(auto, using(crate::proofs::Places::ends))]
fn end_apart(buf: &[u8], pos: usize, first: u8) -> Result<usize, Refusal>
    requires { (pos < length buf.now) × ((first ≡ slice_index buf.now pos) × (128 ≤ first)) }
    ensures { answer_of result ≡ end_u64 buf.now pos }
{
    let (_, taken) = scan(&buf[pos..], first as u64 % 128, 1)?;
    Ok(pos + taken)
}

// The number at `pos`; one byte is the common case.
#[tactic(auto, using(crate::proofs::Reading::places))]
pub fn value_at(buf: &[u8], pos: usize) -> Result<(u64, usize), Refusal>
    ensures { answer_of result ≡ read_u64 buf.now pos }
{
    let first = *buf.get(pos).ok_or(Refusal::VarintPastEnd)?;
    if first < 128 {
        return Ok((first as u64, 1));
    }
    apart(buf, pos, first)
}

// The place behind the number at `pos`.
#[tactic(auto, using(crate::proofs::Places::ends))]
pub fn end_at(buf: &[u8], pos: usize) -> Result<usize, Refusal>
    ensures { answer_of result ≡ end_u64 buf.now pos }
{
    let first = *buf.get(pos).ok_or(Refusal::VarintPastEnd)?;
    if first < 128 {
        return Ok(pos + 1);
    }
    end_apart(buf, pos, first)
}

// The high bit of each byte of a word, and the low seven bits.
const HIGH: u64 = 0x8080_8080_8080_8080;

const LOW: u64 = 0x7F7F_7F7F_7F7F_7F7F;

// Eight groups of seven bits, one in each byte, with the gaps between them closed: in twos, in fours, in eights.
#[tactic(auto, using(crate::proofs::Words::words))]
fn closed_up(groups: u64) -> u64
    ensures { ClosesUp groups result }
{
    let twos = groups - (groups & 0x7F00_7F00_7F00_7F00) / 2;
    let fours = twos - (twos & 0x3FFF_0000_3FFF_0000) / 4 * 3;
    fours % 0x1_0000_0000 + fours / 0x1_0000_0000 * 0x1000_0000
}

// The number at the start of `s`, where it ends within eight bytes. One word is read, and no byte is branched on.
#[tactic(auto, using(crate::proofs::Words::words))]
pub fn in_word(s: &[u8]) -> Option<(u64, usize)>
    requires { 8 ≤ length s.now }
    ensures { InWord s.now result }
{
    let word = u64_at(s);
    // The bytes that end a number have their high bit clear.
    let ends = !word & HIGH;
    if ends == 0 {
        return None;
    }
    let zeros = ends.trailing_zeros() as usize;
    // The low bits up to the first end.
    let upto = (ends - 1) & LOW;
    Some((closed_up(word & upto), zeros / 8 + 1))
}

// ZigZag of the signed number whose 64-bit pattern this is: the pattern added to itself, which drops the top bit, complemented for
// negatives.
#[tactic(auto, using(crate::proofs::Signed::patterns))]
pub fn zigzag_bits(bits: u64) -> u64
    ensures { result ≡ zigzag (cast_signed w64 bits) }
{
    let doubled = bits.wrapping_add(bits);
    if bits < 0x8000_0000_0000_0000 {
        doubled
    } else {
        !doubled
    }
}

// Writes the bytes of `value` from the start of `out`, which has room. The place is counted by hand, since the number ends the loop: a
// `for` over the output would have a second end, which is never come to.
#[tactic(auto, using(crate::proofs::Writing::filling))]
pub fn put_u64(out: &mut [u8], value: u64) -> usize
    requires { len_u64 value ≤ length out.old }
    ensures value { result ≡ len_u64 value }
    ensures out_after { out.new ≡ over out.old (leb_bytes value) }
{
    let mut v = value;
    let mut i: usize = 0;
    while 128 <= v {
        out[i] = (128 + v % 128) as u8;
        v /= 128;
        i += 1;
    }
    out[i] = v as u8;
    i + 1
}

// The bytes of `value`, by its binary digits: a byte holds seven of them, and nine sixty-fourths are near enough to a seventh.
// It asks no limit of the table, so that a loop over numbers of all sizes has no guess to make.
#[tactic(auto, using(crate::proofs::Digits::digits))]
pub fn len_by_digits(value: u64) -> usize
    ensures { result ≡ len_u64 value }
{
    let digits = 64 - (value | 1).leading_zeros() as usize;
    (9 * digits + 64) / 64
}

// As `put_u64`, for numbers of at most three bytes: three stores in any case, of which a later one may cover an earlier. So the length is no guess.
#[tactic(auto, using(crate::proofs::Short::short))]
pub fn put_short(out: &mut [u8], value: u64) -> usize
    requires { (value < 2 ^ 21) × (len_u64 value ≤ length out.old) }
    ensures value { result ≡ len_u64 value }
    ensures out_after { out.new ≡ over out.old (leb_bytes value) }
{
    let second = usize::from(0x80 <= value);
    let last = second + usize::from(0x4000 <= value);
    out[0] = (128 + value % 128) as u8;
    out[second] = (128 + value / 128 % 128) as u8;
    out[last] = (value >> (7 * last)) as u8;
    last + 1
}
