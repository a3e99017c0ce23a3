// How bytes and answers are shown. The values of other crates are shown by functions beside their calls: `Display` may be written only where the
// trait or the type is.
use paper::Refusal;
use std::{fmt, io};

// Bytes, each after a blank, as document 01 writes them: two digits in upper case.
#[derive(Clone, Copy)]
pub struct Hex<'a>(pub &'a [u8]);

impl fmt::Display for Hex<'_> {
    fn fmt<W: fmt::Write>(&self, f: &mut fmt::Formatter<W>) -> fmt::Result {
        for byte in self.0 {
            write!(f, " {byte:02X}")?;
        }
        Ok(())
    }
}

// What is given, as `show` writes it; or the refusal's number.
pub fn answer<T, S: FnOnce(T) -> io::Result<()>>(
    rt: &impl Print,
    given: Result<T, Refusal>,
    show: S,
) -> io::Result<()>
    requires { S.IsAlwaysCallable show }
{
    match given {
        Ok(value) => show(value),
        Err(refusal) => print!(rt; " refused {}", refusal.number()),
    }
}

// The same, at the end of a line.
pub fn line<T, S: FnOnce(T) -> io::Result<()>>(
    rt: &impl Print,
    given: Result<T, Refusal>,
    show: S,
) -> io::Result<()>
    requires { S.IsAlwaysCallable show }
{
    answer(rt, given, show)?;
    println!(rt;)
}

// The rest of a line that tells what was written to the start of `out`.
pub fn written(rt: &impl Print, wrote: Result<usize, Refusal>, out: &[u8]) -> io::Result<()> {
    let written = out.get(..wrote.unwrap_or(0)).unwrap_or(out);
    print!(rt; ":")?;
    line(rt, wrote, |_| print!(rt; "{}", Hex(written)))
}

// The same for an output of which every byte is shown.
pub fn left(rt: &impl Print, wrote: Result<usize, Refusal>, out: &[u8]) -> io::Result<()> {
    print!(rt; ":")?;
    answer(rt, wrote, |_| print!(rt; " accepted"))?;
    println!(rt; ", which leaves{}", Hex(out))
}
