// The fields of a line; rust/differential/src/record.rs has the notation. Any text is read: past its end a number is 0, and a line that lacks
// a field goes on in the next line.
ghost use Rattle.std.specs.Prelude.{◌<◌, ◌≤◌, length, IfOk, IfSome};
ghost use Rattle.std.specs.Iterator.{at_most};

use crate::fault::Fault;

// The text after the next `stop`, or its end.
pub fn after(text: &[u8], stop: u8) -> &[u8]
    ensures { 0 < length text.now → length result.now < length text.now }
{
    match text.iter().position(|byte| *byte == stop) {
        Some(place) => &text[place + 1..],
        None => &[],
    }
}

// Not `to_digit`, which takes A to F too: a damaged line counts as it always did.
fn digit(byte: u8) -> Result<u8, Fault>
    ensures { IfOk result (λ value. value < 16) }
{
    match byte {
        b'0'..=b'9' => Ok(byte - b'0'),
        b'a'..=b'f' => Ok(byte - b'a' + 10),
        _ => Err(Fault::Notation),
    }
}

// Two digits as a byte.
fn pair(high: u8, low: u8) -> Result<u8, Fault> {
    Ok(digit(high)? * 16 + digit(low)?)
}

// Four digits as a count of places. Two of them that are no byte count as 256: a damaged line counts as it always did.
fn count(first: u8, second: u8, third: u8, fourth: u8) -> usize {
    let high = pair(first, second).map_or(256, usize::from);
    let low = pair(third, fourth).map_or(256, usize::from);
    high * 256 + low
}

// A step of a field of bytes: so many places, which take this value or are left as they are.
#[derive(Clone, Copy)]
struct Step {
    count: usize,
    byte: Option<u8>,
}

// The step that `text` starts with, and the text behind it; None where the field ends.
fn first_step(text: &[u8]) -> Result<Option<(Step, &[u8])>, Fault>
    ensures { IfOk result (λ first. IfSome first (λ step. length step.1.now < length text.now)) }
{
    let (count, byte, rest) = match text {
        [b' ' | b'\n' | b'-', ..] => return Ok(None),
        [b'_', a, b, c, d, rest @ ..] => (count(*a, *b, *c, *d), None, rest),
        [b'x', a, b, c, d, high, low, rest @ ..] => {
            (count(*a, *b, *c, *d), Some(pair(*high, *low)?), rest)
        }
        [high, low, rest @ ..] => (1, Some(pair(*high, *low)?), rest),
        _ => return Err(Fault::Notation),
    };
    Ok(Some((Step { count, byte }, rest)))
}

// The number in the hexadecimal digits that `text` starts with.
fn number(text: &[u8]) -> u64 {
    text.iter()
        .map_while(|byte| digit(*byte).ok())
        .fold(0, |value: u64, digit| (value << 4) | u64::from(digit))
}

// The text from the field on that was read last. The next field is looked for when it is asked for, and not before: behind a line's last
// field the next blank may stand many lines on.
#[derive(Clone, Copy)]
pub struct Fields<'a>(&'a [u8]);

impl<'a> Fields<'a> {
    // The number of the call that the line makes, if it is not for the reader alone: its first field.
    pub fn call(&self) -> Option<u64> {
        if self.0.starts_with(b"#") {
            return None;
        }
        Some(number(self.0))
    }

    // The text from the next field on. Each of these methods goes on to it.
    fn next_field(&mut self) -> &'a [u8] {
        self.0 = after(self.0, b' ');
        self.0
    }

    pub fn number(&mut self) -> u64 {
        number(self.next_field())
    }

    // The signed number of this 64-bit pattern.
    pub fn signed(&mut self) -> i64 {
        self.number().cast_signed()
    }

    pub fn page_number(&mut self) -> Result<u32, Fault> {
        u32::try_from(self.number()).map_err(|_| Fault::PageNumber)
    }

    // Puts the field's bytes into `room`, over what stands there, and answers the part that they cover.
    pub fn bytes<'b>(&mut self, room: &'b mut [u8]) -> Result<&'b mut [u8], Fault>
        ensures { IfOk result (λ bytes. length bytes.now ≤ length room.old) }
    {
        let mut text = self.next_field();
        let mut covered: usize = 0;
        while let Some((step, rest)) = first_step(text)? {
            let end = covered.saturating_add(step.count);
            let places = room.get_mut(covered..end).ok_or(Fault::Room)?;
            if let Some(byte) = step.byte {
                places.fill(byte);
            }
            covered = end;
            text = rest;
        }
        room.get_mut(..covered).ok_or(Fault::Room)
    }
}

// The lines of a text: the fields of each.
#[derive(Drop)]
pub struct Lines<'a>(pub &'a [u8]);

impl<'a> Iterator for Lines<'a> {
    type Item = Fields<'a>;

    ghost remaining = { λ lines. at_most (length lines.0.now) };

    fn next(&mut self) -> Option<Fields<'a>> {
        let text = self.0;
        if text.is_empty() {
            return None;
        }
        self.0 = after(text, b'\n');
        Some(Fields(text))
    }
}
