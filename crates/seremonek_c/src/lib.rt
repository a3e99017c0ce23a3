#![tactic(auto)]

// The C interface as C links it: for each call of `seremonek` an exported one, with the same clauses. include/seremonek.h declares them.
// A crate is a library or a static library, and `replay` calls the library: so each call stands twice.
mod entry;
mod interior;
mod number;
mod reference;
mod text;
