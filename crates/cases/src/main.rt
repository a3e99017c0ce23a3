#![tactic(auto)]

// Runs numbers of document 01 through the code, on either side of each limit, and writes a line for each: the file stdout beside src/
// has the lines that are right. What the document marks with a star is proved besides, of the definitions: specs/Rows.antt.
// Each layer has a module of its own, and its lines here.
mod cells;
mod dividers;
mod numbers;
mod references;
mod show;
mod texts;

use crate::cells::List;
use std::io;

fn main(rt: HostRuntime) -> io::Result<()> {
    unsigned(&rt)?;
    signed(&rt)?;
    limits(&rt)?;
    text(&rt)?;
    entry(&rt)?;
    damaged(&rt)?;
    values(&rt)?;
    peeks(&rt)?;
    lists(&rt)?;
    reference(&rt)?;
    paged(&rt)?;
    divider(&rt)
}

fn unsigned(rt: &impl Print) -> io::Result<()> {
    numbers::write::<u64>(rt, "write", 300)?;
    numbers::read::<u64>(rt, "read", b"\xAC\x02")?;
    numbers::write::<u64>(rt, "write", 16_383)?;
    numbers::read::<u64>(rt, "read", b"\xFF\x7F")?;
    numbers::write::<u64>(rt, "write", u64::MAX)?;
    numbers::read::<u64>(rt, "read", b"\xFF\xFF\xFF\xFF\xFF\xFF\xFF\xFF\xFF\x01")?;
    numbers::read::<u64>(rt, "read", b"\x80\x80\x80\x80\x80\x80\x80\x80\x80\x02")?;
    numbers::read::<u64>(rt, "read", b"\xFF\xFF\xFF\xFF\xFF\xFF\xFF\xFF\xFF\x80")?;
    numbers::read::<u64>(rt, "read", b"\x80")?;
    numbers::read::<u64>(rt, "read", b"")?;
    numbers::read::<u64>(rt, "read", b"\x80\x00")?;
    numbers::write_to_one(rt, 127)?;
    numbers::write_to_one(rt, 300)
}

fn signed(rt: &impl Print) -> io::Result<()> {
    numbers::zigzag(rt, -1)?;
    numbers::zigzag(rt, -64)?;
    numbers::zigzag(rt, 64)?;
    numbers::zigzag(rt, i64::MIN)?;
    numbers::zigzag(rt, i64::MAX)?;
    numbers::write::<i64>(rt, "write signed", -64)?;
    numbers::read::<i64>(rt, "read signed", b"\x7F")?;
    numbers::write::<i64>(rt, "write signed", 64)?;
    numbers::read::<i64>(rt, "read signed", b"\x80\x01")?;
    numbers::write::<i64>(rt, "write signed", i64::MIN)?;
    numbers::read::<i64>(
        rt,
        "read signed",
        b"\xFF\xFF\xFF\xFF\xFF\xFF\xFF\xFF\xFF\x01",
    )?;
    numbers::read::<i64>(rt, "read signed", b"\x80")
}

// The nine limits at which the length grows.
fn limits(rt: &impl Print) -> io::Result<()> {
    for k in 1..10 {
        numbers::length_around(rt, 7 * k)?;
    }
    Ok(())
}

// The corners of Table 3-7: 0 in two bytes, the first surrogate, the first number past the last scalar value, and the last one.
fn text(rt: &impl Print) -> io::Result<()> {
    texts::check(rt, b"\xC0\x80")?;
    texts::check(rt, b"\xED\xA0\x80")?;
    texts::check(rt, b"\xF4\x90\x80\x80")?;
    texts::check(rt, b"\xF4\x8F\xBF\xBF")
}

// Rowid 1, Integer 5, null, Text A, Bool true; read, and asked for each column.
fn entry(rt: &impl Print) -> io::Result<()> {
    let row = *b"\x0B\x01\x02\x04\x02\x00\x0A\x02\x01\x41\x03\x01";
    cells::read(rt, &row)?;
    cells::column(rt, &row, 0)?;
    cells::column(rt, &row, 1)?;
    cells::column(rt, &row, 2)?;
    cells::column(rt, &row, 3)?;
    cells::column(rt, &row, 4)?;
    cells::read(rt, b"\x0B\x01\x02\x04\xF2\x00\x0A\x02\x01\x41\x03\x01")
}

// Each refusal of a local entry, in the order of the checks. The last two are a text and a vector whose end passes the machine word.
fn damaged(rt: &impl Print) -> io::Result<()> {
    cells::read(rt, b"")?;
    cells::read(rt, b"\xFF\xFF\xFF\xFF\xFF\xFF\xFF\xFF\xFF\x80")?;
    cells::read(rt, b"\x0B\x01\x02\x04\x02\x00\x0A\x02\x01\x41\x03")?;
    cells::read(rt, b"\x00\x01")?;
    cells::read(rt, b"\x01\x02")?;
    cells::read(rt, b"\x01\x01\x02")?;
    cells::read(rt, b"\x03\x01\x02\x01")?;
    cells::read(rt, b"\x04\x01\x02\x01\x00")?;
    cells::read(rt, b"\x05\x01\x02\x01\x00\x05")?;
    cells::read(rt, b"\x07\x01\x02\x01\x00\x02\x02\x41")?;
    cells::read(rt, b"\x07\x01\x02\x01\x00\x02\x01\x80")?;
    cells::read(rt, b"\x04\x01\x02\x00\x00")?;
    cells::read(
        rt,
        b"\x0F\x01\x00\x01\x00\x02\xFF\xFF\xFF\xFF\xFF\xFF\xFF\xFF\xFF\x01",
    )?;
    cells::read(
        rt,
        b"\x0E\x01\x00\x01\x00\x04\x80\x80\x80\x80\x80\x80\x80\x80\x40",
    )
}

// A Bool byte above 1; the NaN of pattern 7FF0000000000001; a vector of one number.
fn values(rt: &impl Print) -> io::Result<()> {
    cells::column(rt, b"\x06\x01\x02\x01\x00\x03\x02", 0)?;
    cells::column(
        rt,
        b"\x0D\x01\x02\x01\x00\x01\x01\x00\x00\x00\x00\x00\xF0\x7F",
        0,
    )?;
    cells::column(rt, b"\x0A\x01\x02\x01\x00\x04\x01\x00\x00\x80\x3F", 0)
}

// The peeks, which ignore the body length, on either side of each limit; sizes of 2^64 - 1 and of one byte more.
fn peeks(rt: &impl Print) -> io::Result<()> {
    cells::kind(rt, b"\x05\x07")?;
    cells::kind(rt, b"\x05")?;
    cells::rowid(rt, b"\x00\x01\x02")?;
    cells::rowid(rt, b"\x00\x01")?;
    cells::rowid(rt, b"\x00")?;
    cells::size(rt, b"\x05")?;
    cells::size(rt, b"\xF5\xFF\xFF\xFF\xFF\xFF\xFF\xFF\xFF\x01")?;
    cells::size(rt, b"\xF6\xFF\xFF\xFF\xFF\xFF\xFF\xFF\xFF\x01")
}

fn list<'a>(kinds: &'a [u8], words: &'a [u8], data: &'a [u8]) -> List<'a> {
    List { kinds, words, data }
}

// The row of `entry` written; and each refusal of a value list, in the order of the checks.
fn lists(rt: &impl Print) -> io::Result<()> {
    let words =
        *b"\x05\x00\x00\x00\x00\x00\x00\x00\x00\x00\x00\x00\x00\x00\x00\x00\x01\x00\x00\x00\x00\x00\x00\x00\x01\x00\x00\x00\x00\x00\x00\x00";
    cells::write(rt, 1, list(b"\x00\xFF\x02\x03", &words, b"A"))?;
    let one = *b"\x01\x00\x00\x00\x00\x00\x00\x00";
    let two = *b"\x02\x00\x00\x00\x00\x00\x00\x00";
    cells::write(rt, 1, list(b"\x00", b"\x01", b""))?;
    cells::write(rt, 1, list(b"\x00\x00", &one, b""))?;
    cells::write(rt, 1, list(b"\x06", &one, b""))?;
    cells::write(rt, 1, list(b"\x03", &two, b""))?;
    cells::write(rt, 1, list(b"\xFF", &one, b""))?;
    cells::write(rt, 1, list(b"\x02", &one, b""))?;
    cells::write(rt, 1, list(b"\x04", &one, b"ABC"))?;
    cells::write(rt, 1, list(b"\x05", &one, b""))?;
    cells::write(rt, 1, list(b"\x02", &one, b"\x80"))?;
    cells::write(rt, 1, list(b"\x02", &one, b"AB"))?;
    cells::write_to_four(rt, 1, list(b"", b"", b""))?;
    cells::write_to_four(rt, 1, list(b"\x03", &one, b""))
}

// Rowid 7, total 5,000, page 9; and its neighbours: another kind, an empty body, no bytes of the total, one byte of the page missing, one
// too many. The largest one takes 26 bytes, and an output of 25 is refused.
fn reference(rt: &impl Print) -> io::Result<()> {
    references::read(rt, b"\x08\x02\x0E\x88\x27\x09\x00\x00\x00")?;
    references::read(rt, b"\x08\x01\x0E\x88\x27\x09\x00\x00\x00")?;
    references::read(rt, b"\x00")?;
    references::read(rt, b"\x02\x02\x0E")?;
    references::read(rt, b"\x07\x02\x0E\x88\x27\x09\x00\x00\x00")?;
    references::read(rt, b"\x09\x02\x0E\x88\x27\x09\x00\x00\x00\x00")?;
    references::write(rt, 7, 5000, 9, &mut [0u8; 32])?;
    references::write(rt, i64::MIN, u64::MAX, u32::MAX, &mut [0u8; 32])?;
    references::write(rt, i64::MIN, u64::MAX, u32::MAX, &mut [0u8; 25])
}

// The kind byte decides: a cell, a reference, a divider, and no kind byte. It is looked for in the buffer: behind an empty body stands
// one, and then the reader of that kind refuses the body.
fn paged(rt: &impl Print) -> io::Result<()> {
    references::read_paged(rt, b"\x0B\x01\x02\x04\x02\x00\x0A\x02\x01\x41\x03\x01")?;
    references::read_paged(rt, b"\x08\x02\x0E\x88\x27\x09\x00\x00\x00")?;
    references::read_paged(rt, b"\x06\x03\x14\x03\x00\x00\x00")?;
    references::read_paged(rt, b"\x05")?;
    references::read_paged(rt, b"\x00\x01")?;
    references::read_paged(rt, b"\x00\x02")
}

// Divider 10, child 3; and its neighbours, as for references. The largest one takes 16 bytes, and an output of 15 is refused.
fn divider(rt: &impl Print) -> io::Result<()> {
    dividers::read(rt, b"\x06\x03\x14\x03\x00\x00\x00")?;
    dividers::read(rt, b"\x06\x02\x14\x03\x00\x00\x00")?;
    dividers::read(rt, b"\x05\x03\x14\x03\x00\x00\x00")?;
    dividers::read(rt, b"\x07\x03\x14\x03\x00\x00\x00\x00")?;
    dividers::write(rt, 10, 3, &mut [0u8; 32])?;
    dividers::write(rt, i64::MIN, u32::MAX, &mut [0u8; 32])?;
    dividers::write(rt, i64::MIN, u32::MAX, &mut [0u8; 15])
}
