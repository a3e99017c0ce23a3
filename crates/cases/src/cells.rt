// Cells: a line for each call of cell.
use crate::show::{self, Hex};
use cell::Head;
use cell::value::Value;
use paper::Refusal;
use std::io;

pub fn read(rt: &impl Print, bytes: &[u8]) -> io::Result<()> {
    print!(rt; "entry{}:", Hex(bytes))?;
    show::line(rt, cell::decode(bytes, 0), |head| head_shown(rt, head))
}

pub fn head_shown(rt: &impl Print, head: Head) -> io::Result<()> {
    print!(rt;
        " rowid {}, columns {}, bytes taken {}",
        head.rowid, head.columns, head.bytes
    )
}

pub fn column(rt: &impl Print, bytes: &[u8], column: usize) -> io::Result<()> {
    print!(rt; "column {column}:")?;
    show::line(
        rt,
        cell::value::column_value(bytes, 0, column),
        |value| value_shown(rt, value),
    )
}

fn value_shown(rt: &impl Print, value: Value) -> io::Result<()> {
    match value {
        Value::Null => print!(rt; " null"),
        Value::Integer(v) => print!(rt; " Integer {v}"),
        Value::Real(_, bits) => print!(rt; " Real, bits {bits}"),
        Value::Bool(b) => print!(rt; " Bool {b}"),
        Value::Text(at, len) => print!(rt; " Text at {at}, {len}"),
        Value::Vector(at, dim) => print!(rt; " Vector at {at}, {dim}"),
    }
}

// A value list for writing: its words as they are lent, eight bytes each, the lowest first.
#[derive(Clone, Copy)]
pub struct List<'a> {
    pub kinds: &'a [u8],
    pub words: &'a [u8],
    pub data: &'a [u8],
}

impl List<'_> {
    fn encode(self, rowid: i64, out: &mut [u8]) -> Result<usize, Refusal> {
        cell::encode::encode(rowid, self.kinds, self.words, self.data, out)
    }

    fn shown(self, rt: &impl Print, rowid: i64) -> io::Result<()> {
        print!(rt;
            "write entry of rowid {rowid}, kinds{}, words{}, data{}",
            Hex(self.kinds),
            Hex(self.words),
            Hex(self.data)
        )
    }
}

pub fn write(rt: &impl Print, rowid: i64, list: List) -> io::Result<()> {
    let mut out = [0u8; 32];
    let wrote = list.encode(rowid, &mut out);
    list.shown(rt, rowid)?;
    show::written(rt, wrote, &out)
}

// The same to an output of four bytes, EE, with these bytes after the call. One function for both would take the words and the way to show it.
pub fn write_to_four(rt: &impl Print, rowid: i64, list: List) -> io::Result<()> {
    let mut out = [0xEEu8; 4];
    let wrote = list.encode(rowid, &mut out);
    list.shown(rt, rowid)?;
    print!(rt; " to four bytes")?;
    show::left(rt, wrote, &out)
}

pub fn kind(rt: &impl Print, bytes: &[u8]) -> io::Result<()> {
    print!(rt; "kind in{}:", Hex(bytes))?;
    show::line(
        rt,
        cell::peek_kind(bytes, 0),
        |kind| print!(rt; " {kind:02X}"),
    )
}

pub fn rowid(rt: &impl Print, bytes: &[u8]) -> io::Result<()> {
    print!(rt; "rowid in{}:", Hex(bytes))?;
    show::line(
        rt,
        cell::peek_rowid(bytes, 0),
        |rowid| print!(rt; " {rowid}"),
    )
}

pub fn size(rt: &impl Print, bytes: &[u8]) -> io::Result<()> {
    print!(rt; "size of{}:", Hex(bytes))?;
    show::line(
        rt,
        cell::encoded_size_at(bytes, 0),
        |size| print!(rt; " {size}"),
    )
}
