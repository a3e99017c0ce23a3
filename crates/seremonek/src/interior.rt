// Interior cells.
ghost use Rattle.std.specs.Prelude.{◌≡◌, length, drop};
ghost use Rattle.paper.specs.Answer.{put, size_of};
ghost use Rattle.interior_page.specs.InteriorCells.{interior_from, write_interior};
ghost use Rattle.seremonek.specs.Interface.{code_of, answered, one};
ghost use Rattle.seremonek.specs.Keyed.{interior_words};

use crate::inner::reply;
use interior_page::InteriorCell;

// divider, child, bytes
pub fn smk_interior_cell_decode(buf: &[u8], pos: usize, answer: &mut [u64; 3]) -> u32
    ensures value { result ≡ code_of (interior_from (drop pos buf.now)) }
    ensures answer_after { answer.new ≡ answered interior_words (interior_from (drop pos buf.now)) answer.old }
{
    reply(interior_page::decode(buf, pos), answer)
}

// bytes
#[tactic(auto, using(crate::proofs::Writes::size_code))]
pub fn smk_interior_cell_encode(
    divider: i64,
    child: u32,
    out: &mut [u8],
    answer: &mut [u64; 1],
) -> u32
    ensures value { result ≡ code_of (write_interior divider child (length out.old)) }
    ensures out_after { out.new ≡ put out.old (write_interior divider child (length out.old)) }
    ensures answer_after { answer.new ≡ answered one (size_of (write_interior divider child (length out.old))) answer.old }
{
    let cell = InteriorCell {
        divider_rowid: divider,
        child_page: child,
    };
    reply(interior_page::encode(cell, out), answer)
}
