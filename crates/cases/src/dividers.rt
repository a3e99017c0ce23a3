// Interior cells: a line for each call of interior_page.
use crate::show::{self, Hex};
use interior_page::InteriorCell;
use std::io;

pub fn read(rt: &impl Print, bytes: &[u8]) -> io::Result<()> {
    print!(rt; "interior cell{}:", Hex(bytes))?;
    show::line(
        rt,
        interior_page::decode(bytes, 0),
        |(cell, taken)| print!(rt;
            " divider {}, child {}, bytes taken {taken}",
            cell.divider_rowid, cell.child_page
        ),
    )
}

pub fn write(rt: &impl Print, divider: i64, child: u32, out: &mut [u8]) -> io::Result<()> {
    let cell = InteriorCell {
        divider_rowid: divider,
        child_page: child,
    };
    let wrote = interior_page::encode(cell, out);
    print!(rt; "write interior cell")?;
    show::written(rt, wrote, out)
}
