// Numbers: a line for each call of varint.
use crate::show::{self, Hex};
use std::fmt::Display;
use std::io;
use varint::Integer;

pub fn read<N: Integer + Display>(rt: &impl Print, name: &str, bytes: &[u8]) -> io::Result<()> {
    print!(rt; "{name}{}:", Hex(bytes))?;
    show::line(
        rt,
        varint::read::<N>(bytes, 0),
        |(value, taken)| print!(rt; " {value}, bytes taken {taken}"),
    )
}

pub fn write<N: Integer + Display>(rt: &impl Print, name: &str, value: N) -> io::Result<()> {
    let mut out = [0u8; 10];
    let wrote = varint::write(&mut out, value);
    print!(rt; "{name} {value}")?;
    show::written(rt, wrote, &out)
}

// The same to an output of one byte, EE, with that byte after the call. One function for both would take the words and the way to show it.
pub fn write_to_one(rt: &impl Print, value: u64) -> io::Result<()> {
    let mut out = [0xEEu8];
    let wrote = varint::write(&mut out, value);
    print!(rt; "write {value} to one byte")?;
    show::left(rt, wrote, &out)
}

pub fn zigzag(rt: &impl Print, value: i64) -> io::Result<()> {
    let encoded = varint::zigzag_encode(value);
    println!(rt;
        "zigzag {value}: {encoded}, back {}",
        varint::zigzag_decode(encoded)
    )
}

// The lengths on either side of 2^bits.
pub fn length_around(rt: &impl Print, bits: u64) -> io::Result<()> {
    let limit = 1u64 << (bits % 64);
    println!(rt; "length of 2^{bits} - 1: {}", varint::len(limit - 1))?;
    println!(rt; "length of 2^{bits}: {}", varint::len(limit))
}
