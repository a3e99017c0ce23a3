#![tactic(auto)]

// Variable-length integers: the port of varint.rs.
//
// Unsigned integers are LEB128, little-endian base 128: seven bits a byte, the high bit set while more bytes follow.
// Signed integers are ZigZag and then LEB128. A read answers the value and the bytes taken, or a refusal.
ghost use Rattle.std.specs.Prelude.{◌≡◌, ℕ, length, refl};
ghost use Rattle.paper.specs.Answer.{answer_of, put, size_of};
ghost use Rattle.varint.specs.Leb.{write_u64, len_u64};
ghost use Rattle.varint.specs.Zigzag.{zigzag, unzigzag, undone};
ghost use Rattle.varint.specs.Number.{read_as};

use paper::Refusal;

pub mod inner;

// Upper bound on the bytes of a 64-bit number: seven bits a byte.
pub const MAX_VARINT_BYTES: usize = 10;

// The nine numbers at which the length grows: 2^7, 2^14, .., 2^63.
const LIMITS: [u64; 9] = [
    0x80,
    0x4000,
    0x20_0000,
    0x1000_0000,
    0x8_0000_0000,
    0x400_0000_0000,
    0x2_0000_0000_0000,
    0x100_0000_0000_0000,
    0x8000_0000_0000_0000,
];

// The integers that have a varint, each by the unsigned number that LEB128 stores for it.
pub trait Integer: Copy {
    ghost encoded: { Self → ℕ };

    ghost decoded: { ℕ → Self };

    fn encode(self) -> u64
        ensures { result ≡ encoded self };

    fn decode(bits: u64) -> Self
        ensures { result ≡ decoded bits };

    ghost back: { (x : Self) → decoded (encoded x) ≡ x };
}

// As it is.
impl Integer for u64 {
    ghost encoded = { λ x. x };

    ghost decoded = { λ x. x };

    ghost back = { λ x. refl };

    fn encode(self) -> u64 {
        self
    }

    fn decode(bits: u64) -> u64 {
        bits
    }
}

// By ZigZag.
impl Integer for i64 {
    ghost encoded = { zigzag };

    ghost decoded = { unzigzag };

    ghost back = { undone };

    fn encode(self) -> u64 {
        zigzag_encode(self)
    }

    fn decode(bits: u64) -> i64 {
        zigzag_decode(bits)
    }
}

// Writes `value` in the fewest bytes; one byte is the common case. An output that is too short is refused and keeps every byte.
#[tactic(auto, using(crate::proofs::Writing::writing))]
pub fn write<N: Integer>(out: &mut [u8], value: N) -> Result<usize, Refusal>
    ensures result_value { answer_of result ≡ size_of (write_u64 (N.encoded value) (length out.old)) }
    ensures out_after { out.new ≡ put out.old (write_u64 (N.encoded value) (length out.old)) }
{
    let bits = value.encode();
    if bits < 128 {
        *out.first_mut().ok_or(Refusal::OutputTooShort)? = bits as u8;
        return Ok(1);
    }
    // Room for any number is seen at once; a shorter output is held to the number's own length.
    if out.len() < MAX_VARINT_BYTES && out.len() < len(bits) {
        return Err(Refusal::OutputTooShort);
    }
    Ok(inner::put_u64(out, bits))
}

// Reads a number from `buf` at `pos`, which may be any number. One byte is the common case. It is laid out in its callers, since a pair
// goes through memory at a call.
#[inline(always)]
#[tactic(auto, using(crate::proofs::Reading::places), unfolding(crate::specs::Number::read_as, paper::specs::Answer::and_then))]
pub fn read<N: Integer>(buf: &[u8], pos: usize) -> Result<(N, usize), Refusal>
    ensures { answer_of result ≡ read_as N.decoded buf.now pos }
{
    if buf.len() <= pos {
        return Err(Refusal::VarintPastEnd);
    }
    let first = buf[pos];
    if first < 128 {
        return Ok((N::decode(first as u64), 1));
    }
    let (bits, taken) = inner::scan(&buf[pos..], first as u64 % 128, 1)?;
    Ok((N::decode(bits), taken))
}

// The number of bytes that `write` writes for `value`.
pub fn len<N: Integer>(value: N) -> usize
    ensures { result ≡ len_u64 (N.encoded value) }
{
    let bits = value.encode();
    for (n, limit) in LIMITS.iter().enumerate() {
        if bits < *limit {
            return n + 1;
        }
    }
    MAX_VARINT_BYTES
}

// 2v, or -2v - 1 below zero.
#[tactic(auto, using(crate::proofs::Signed::of_pattern))]
pub fn zigzag_encode(v: i64) -> u64
    ensures { result ≡ zigzag v }
{
    inner::zigzag_bits(v.cast_unsigned())
}

#[tactic(auto, using(crate::proofs::Signed::patterns))]
pub fn zigzag_decode(v: u64) -> i64
    ensures { result ≡ unzigzag v }
{
    if v % 2 == 0 {
        (v / 2) as i64
    } else {
        !((v / 2) as i64)
    }
}
