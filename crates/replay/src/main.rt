#![tactic(auto)]

// Replays the answers of the original Rust that `differential record` wrote to data/: makes each call again, through the functions of `seremonek`,
// and counts for each call how often the answer is the recorded one. It needs no Rust.
//
// A file of data/ holds one layer. A new layer adds its module of calls, and a line in `main`.
mod answers;
mod calls;
mod cell_calls;
mod fault;
mod fields;
mod reference_calls;
mod text_calls;
mod varint_calls;

ghost use Rattle.std.specs.Prelude.{◌≤◌, length};

use crate::calls::{Count, Layer, replay_lines};
use crate::cell_calls::Cell;
use crate::reference_calls::References;
use crate::text_calls::Utf8;
use crate::varint_calls::Varint;
use std::io::Read;
use std::rt::Files;
use std::{fs, io};

// The room for a file of the record. record.rs keeps to it.
const FILE_ROOM: usize = 0x40000;

// Reads until `room` is full, the file ends or a read fails, and answers the part that it filled. (Into a `Vec` the file would rest the
// verdict on three more statements about the C library.)
fn read_full<'a>(file: &mut impl Read, room: &'a mut [u8]) -> &'a [u8]
    ensures { length result.now ≤ length room.old }
{
    let mut done = 0;
    while done < room.len() {
        match file.read(&mut room[done..]) {
            Ok(0) | Err(_) => break,
            Ok(n) => done += n,
        }
    }
    &room[..done]
}

// Replays a layer's file and prints the counts of its calls. A file that cannot be opened, and one that is too long, counts as one that differs.
fn replay<L: Layer, R: Files + Print + Eprint>(rt: &R) -> io::Result<Count> {
    let path = L::FILE;
    let mut file = match fs::open(rt, path) {
        Ok(file) => file,
        Err(error) => {
            eprintln!(rt; "{path}: {error}")?;
            return Ok(Count::ONE_DIFFERS);
        }
    };
    let mut room = [0u8; FILE_ROOM];
    let text = read_full(&mut file, &mut room);
    drop(file);
    if text.len() == FILE_ROOM {
        println!(rt; "a file of data/ is longer than there is room for")?;
        return Ok(Count::ONE_DIFFERS);
    }
    replay_lines::<L, R>(rt, text)
}

fn main(rt: HostRuntime) -> io::Result<()> {
    let mut total = replay::<Varint, _>(&rt)?;
    total += replay::<Utf8, _>(&rt)?;
    total += replay::<Cell, _>(&rt)?;
    total += replay::<References, _>(&rt)?;
    println!(rt; "total {total}")
}
