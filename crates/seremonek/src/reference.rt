// Overflow references, and the paged entry, which is a local entry or such a reference.
ghost use Rattle.std.specs.Prelude.{◌≡◌, length, drop};
ghost use Rattle.paper.specs.Answer.{put, size_of};
ghost use Rattle.overflow.specs.Reference.{reference_from, write_reference};
ghost use Rattle.overflow.specs.Paged.{paged_from};
ghost use Rattle.seremonek.specs.Interface.{code_of, answered, one};
ghost use Rattle.seremonek.specs.Keyed.{reference_words, paged_words};

use crate::inner::reply;
use overflow::OverflowRef;

// rowid, total, first page, bytes
pub fn smk_overflow_decode(buf: &[u8], pos: usize, answer: &mut [u64; 4]) -> u32
    ensures value { result ≡ code_of (reference_from (drop pos buf.now)) }
    ensures answer_after { answer.new ≡ answered reference_words (reference_from (drop pos buf.now)) answer.old }
{
    reply(overflow::decode(buf, pos), answer)
}

// bytes
#[tactic(auto, using(crate::proofs::Writes::size_code))]
pub fn smk_overflow_encode(
    rowid: i64,
    total: u64,
    first: u32,
    out: &mut [u8],
    answer: &mut [u64; 1],
) -> u32
    ensures value { result ≡ code_of (write_reference rowid total first (length out.old)) }
    ensures out_after { out.new ≡ put out.old (write_reference rowid total first (length out.old)) }
    ensures answer_after { answer.new ≡ answered one (size_of (write_reference rowid total first (length out.old))) answer.old }
{
    let reference = OverflowRef {
        rowid,
        total_body_len: total,
        first_overflow_page: first,
    };
    reply(overflow::encode(reference, out), answer)
}

// kind, rowid, columns or total, 0 or first page, bytes
pub fn smk_entry_decode(buf: &[u8], pos: usize, answer: &mut [u64; 5]) -> u32
    ensures value { result ≡ code_of (paged_from (drop pos buf.now)) }
    ensures answer_after { answer.new ≡ answered paged_words (paged_from (drop pos buf.now)) answer.old }
{
    reply(overflow::decode_paged(buf, pos), answer)
}
