#![tactic(auto)]

// The calls of the C interface: one thin function for each. Each returns 0 or the refusal's number; what a call answers goes
// into an array of 64-bit words, which a refusal leaves as it was. `seremonek_c` exports them, and include/seremonek.h declares them.
pub mod entry;
pub mod inner;
pub mod interior;
pub mod number;
pub mod reference;
pub mod text;
