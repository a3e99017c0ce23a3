// Numbers: LEB128 and ZigZag. C has a call for each type.
ghost use Rattle.std.specs.Prelude.{◌≡◌, length};
ghost use Rattle.paper.specs.Answer.{put, size_of};
ghost use Rattle.varint.specs.Leb.{read_u64, write_u64, len_u64};
ghost use Rattle.varint.specs.Number.{read_i64, write_i64, len_i64};
ghost use Rattle.varint.specs.Zigzag.{zigzag, unzigzag};
ghost use Rattle.seremonek.specs.Interface.{code_of, answered, one, two, signed_two};

use crate::inner::reply;

// value, bytes
#[tactic(auto, using(varint::proofs::Places::read_as_u64))]
pub fn smk_read_u64(buf: &[u8], pos: usize, answer: &mut [u64; 2]) -> u32
    ensures value { result ≡ code_of (read_u64 buf.now pos) }
    ensures answer_after { answer.new ≡ answered two (read_u64 buf.now pos) answer.old }
{
    reply(varint::read::<u64>(buf, pos), answer)
}

// value, bytes
#[tactic(auto, using(varint::proofs::Places::read_as_i64))]
pub fn smk_read_i64(buf: &[u8], pos: usize, answer: &mut [u64; 2]) -> u32
    ensures value { result ≡ code_of (read_i64 buf.now pos) }
    ensures answer_after { answer.new ≡ answered signed_two (read_i64 buf.now pos) answer.old }
{
    reply(varint::read::<i64>(buf, pos), answer)
}

// bytes
#[tactic(auto, using(crate::proofs::Writes::size_code))]
pub fn smk_write_u64(value: u64, out: &mut [u8], answer: &mut [u64; 1]) -> u32
    ensures value { result ≡ code_of (write_u64 value (length out.old)) }
    ensures out_after { out.new ≡ put out.old (write_u64 value (length out.old)) }
    ensures answer_after { answer.new ≡ answered one (size_of (write_u64 value (length out.old))) answer.old }
{
    reply(varint::write(out, value), answer)
}

// bytes
#[tactic(auto, using(crate::proofs::Writes::size_code, varint::proofs::Signed::write_as_i64))]
pub fn smk_write_i64(value: i64, out: &mut [u8], answer: &mut [u64; 1]) -> u32
    ensures value { result ≡ code_of (write_i64 value (length out.old)) }
    ensures out_after { out.new ≡ put out.old (write_i64 value (length out.old)) }
    ensures answer_after { answer.new ≡ answered one (size_of (write_i64 value (length out.old))) answer.old }
{
    reply(varint::write(out, value), answer)
}

pub fn smk_u64_len(value: u64) -> u64
    ensures { result ≡ len_u64 value }
{
    varint::len(value) as u64
}

#[tactic(auto, using(varint::proofs::Signed::len_as_i64))]
pub fn smk_i64_len(value: i64) -> u64
    ensures { result ≡ len_i64 value }
{
    varint::len(value) as u64
}

pub fn smk_zigzag_encode(value: i64) -> u64
    ensures { result ≡ zigzag value }
{
    varint::zigzag_encode(value)
}

pub fn smk_zigzag_decode(value: u64) -> i64
    ensures { result ≡ unzigzag value }
{
    varint::zigzag_decode(value)
}
