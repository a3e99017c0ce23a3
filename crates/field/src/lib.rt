#![tactic(auto)]

// Little-endian fields. Whatever asks something of its caller stands in `inner`.
pub mod inner;
