// Entries: the peeks; a local entry's head and values; writing one.
ghost use Rattle.std.specs.Prelude.{◌≡◌, drop, length};
ghost use Rattle.paper.specs.Answer.{put, size_of};
ghost use Rattle.cell.specs.Entry.{peek_kind, peek_rowid, size_at};
ghost use Rattle.cell.specs.Local.{head_from, value_at};
ghost use Rattle.cell.specs.Written.{encoded, write_cell};
ghost use Rattle.seremonek.specs.Interface.{code_of, answered, one, signed_one, signed_three, value_three};

// kind
#[unsafe(no_mangle)]
pub extern "C" fn smk_peek_kind(buf: &[u8], pos: usize, answer: &mut [u64; 1]) -> u32
    ensures value { result ≡ code_of (peek_kind (drop pos buf.now)) }
    ensures answer_after { answer.new ≡ answered one (peek_kind (drop pos buf.now)) answer.old }
{
    seremonek::entry::smk_peek_kind(buf, pos, answer)
}

// rowid
#[unsafe(no_mangle)]
pub extern "C" fn smk_peek_rowid(buf: &[u8], pos: usize, answer: &mut [u64; 1]) -> u32
    ensures value { result ≡ code_of (peek_rowid (drop pos buf.now)) }
    ensures answer_after { answer.new ≡ answered signed_one (peek_rowid (drop pos buf.now)) answer.old }
{
    seremonek::entry::smk_peek_rowid(buf, pos, answer)
}

// bytes
#[unsafe(no_mangle)]
pub extern "C" fn smk_encoded_size_at(buf: &[u8], pos: usize, answer: &mut [u64; 1]) -> u32
    ensures value { result ≡ code_of (size_at (drop pos buf.now)) }
    ensures answer_after { answer.new ≡ answered one (size_at (drop pos buf.now)) answer.old }
{
    seremonek::entry::smk_encoded_size_at(buf, pos, answer)
}

// rowid, columns, bytes
#[unsafe(no_mangle)]
pub extern "C" fn smk_cell_decode(buf: &[u8], pos: usize, answer: &mut [u64; 3]) -> u32
    ensures value { result ≡ code_of (head_from (drop pos buf.now)) }
    ensures answer_after { answer.new ≡ answered signed_three (head_from (drop pos buf.now)) answer.old }
{
    seremonek::entry::smk_cell_decode(buf, pos, answer)
}

// kind, word, place
#[unsafe(no_mangle)]
pub extern "C" fn smk_cell_value(buf: &[u8], pos: usize, column: u64, answer: &mut [u64; 3]) -> u32
    ensures value { result ≡ code_of (value_at buf.now pos column) }
    ensures answer_after { answer.new ≡ answered value_three (value_at buf.now pos column) answer.old }
{
    seremonek::entry::smk_cell_value(buf, pos, column, answer)
}

// bytes
#[unsafe(no_mangle)]
pub extern "C" fn smk_cell_encode(
    rowid: i64,
    kinds: &[u8],
    words: &[u8],
    data: &[u8],
    out: &mut [u8],
    answer: &mut [u64; 1],
) -> u32
    ensures value { result ≡ code_of (write_cell rowid kinds.now words.now «data».now (length out.old)) }
    ensures out_after { out.new ≡ put out.old (write_cell rowid kinds.now words.now «data».now (length out.old)) }
    ensures answer_after { answer.new ≡ answered one (size_of (write_cell rowid kinds.now words.now «data».now (length out.old))) answer.old }
{
    seremonek::entry::smk_cell_encode(rowid, kinds, words, data, out, answer)
}

// bytes
#[unsafe(no_mangle)]
pub extern "C" fn smk_cell_encoded_len(
    rowid: i64,
    kinds: &[u8],
    words: &[u8],
    data: &[u8],
    answer: &mut [u64; 1],
) -> u32
    ensures value { result ≡ code_of (encoded rowid kinds.now words.now «data».now) }
    ensures answer_after { answer.new ≡ answered one (size_of (encoded rowid kinds.now words.now «data».now)) answer.old }
{
    seremonek::entry::smk_cell_encoded_len(rowid, kinds, words, data, answer)
}
