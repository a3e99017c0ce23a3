// Why the answer of a call is not the recorded one.
#[derive(Clone, Copy, Debug, PartialEq, Eq)]
pub enum Fault {
    // A field is not in the notation of bytes.
    Notation,
    // There is no room for the bytes of a field.
    Room,
    // A page number has more than 32 bits.
    PageNumber,
    // The call was refused otherwise, or one of the two was accepted.
    Refusal,
    // It answered another value.
    Value,
    // It was refused, and wrote to the answer array.
    Touched,
    // It left other bytes in an output.
    Output,
}
