// Overflow references and paged entries: a line for each call of overflow.
use crate::cells;
use crate::show::{self, Hex};
use overflow::{OverflowRef, PagedEntry};
use std::io;

fn shown(rt: &impl Print, reference: OverflowRef, taken: usize) -> io::Result<()> {
    print!(rt;
        " rowid {}, total {}, first page {}, bytes taken {taken}",
        reference.rowid, reference.total_body_len, reference.first_overflow_page
    )
}

pub fn read(rt: &impl Print, bytes: &[u8]) -> io::Result<()> {
    print!(rt; "reference{}:", Hex(bytes))?;
    show::line(
        rt,
        overflow::decode(bytes, 0),
        |(reference, taken)| shown(rt, reference, taken),
    )
}

pub fn read_paged(rt: &impl Print, bytes: &[u8]) -> io::Result<()> {
    print!(rt; "paged entry{}:", Hex(bytes))?;
    show::line(
        rt,
        overflow::decode_paged(bytes, 0),
        |entry| entry_shown(rt, entry),
    )
}

fn entry_shown(rt: &impl Print, entry: PagedEntry) -> io::Result<()> {
    match entry {
        PagedEntry::Local(head) => {
            print!(rt; " local,")?;
            cells::head_shown(rt, head)
        }
        PagedEntry::Overflow(reference, taken) => {
            print!(rt; " overflow,")?;
            shown(rt, reference, taken)
        }
    }
}

pub fn write(rt: &impl Print, rowid: i64, total: u64, page: u32, out: &mut [u8]) -> io::Result<()> {
    let reference = OverflowRef {
        rowid,
        total_body_len: total,
        first_overflow_page: page,
    };
    let wrote = overflow::encode(reference, out);
    print!(rt; "write reference")?;
    show::written(rt, wrote, out)
}
