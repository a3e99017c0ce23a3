// Texts: a line for each call of utf8.
use crate::show::{self, Hex};
use std::io;

pub fn check(rt: &impl Print, bytes: &[u8]) -> io::Result<()> {
    print!(rt; "check{}:", Hex(bytes))?;
    show::line(rt, utf8::check(bytes), |()| print!(rt; " text"))
}
