// How a call's answer goes through C.
ghost use Rattle.std.specs.Prelude.{◌≡◌, ℕ, List, []};
ghost use Rattle.std.specs.Int.{w64};
ghost use Rattle.std.proofs.Common.{of_z};
ghost use Rattle.paper.specs.Answer.{answer_of};
ghost use Rattle.cell.specs.PaperValue.{paper_value};
ghost use Rattle.overflow.specs.Paper.{reference_values, paged_values};
ghost use Rattle.interior_page.specs.Paper.{interior_values};
ghost use Rattle.seremonek.specs.Interface.{code_of, answered, one, two, signed_three, value_three};
ghost use Rattle.seremonek.specs.Keyed.{reference_words, paged_words, interior_words};

use cell::tag::Tag;
use cell::value::Value;
use cell::{Head, Kind};
use interior_page::InteriorCell;
use overflow::{OverflowRef, PagedEntry};
use paper::Refusal;

// What a call gives, as the words of its answer array.
pub trait Words<const N: usize> {
    ghost words: { Self → List ℕ };

    fn words(self) -> [u64; N]
        ensures { result ≡ words self };
}

// The words of what is given, and 0; or a refusal's number, and the array as it was.
pub fn reply<const N: usize, T: Words<N>>(given: Result<T, Refusal>, answer: &mut [u64; N]) -> u32
    ensures code { result ≡ code_of (answer_of given) }
    ensures answer_after { answer.new ≡ answered T.words (answer_of given) answer.old }
{
    match given {
        Ok(value) => {
            *answer = value.words();
            0
        }
        Err(refusal) => refusal.number() as u32,
    }
}

// One number of an answer, as a word.
pub trait Word {
    ghost word: { Self → ℕ };

    fn word(self) -> u64
        ensures { result ≡ word self };
}

impl Word for u8 {
    ghost word = { λ n. n };

    fn word(self) -> u64 {
        self as u64
    }
}

impl Word for usize {
    ghost word = { λ n. n };

    fn word(self) -> u64 {
        self as u64
    }
}

impl Word for u64 {
    ghost word = { λ n. n };

    fn word(self) -> u64 {
        self
    }
}

// a signed number is its 64-bit pattern
impl Word for i64 {
    ghost word = { λ z. of_z w64 z };

    fn word(self) -> u64 {
        self.cast_unsigned()
    }
}

impl<T: Word> Words<1> for T {
    ghost words = { λ value. one (T.word value) };

    fn words(self) -> [u64; 1] {
        [self.word()]
    }
}

impl<T: Word> Words<2> for (T, usize) {
    ghost words = { λ (value, bytes). two (T.word value, bytes) };

    fn words(self) -> [u64; 2] {
        [self.0.word(), self.1 as u64]
    }
}

// nothing
impl Words<0> for () {
    ghost words = { λ _. [] };

    fn words(self) -> [u64; 0] {
        []
    }
}

// rowid, columns, bytes
impl Words<3> for Head {
    ghost words = { λ head. signed_three (head.rowid, head.columns, head.bytes) };

    fn words(self) -> [u64; 3] {
        [
            self.rowid.cast_unsigned(),
            self.columns as u64,
            self.bytes as u64,
        ]
    }
}

// kind, word, place
impl Words<3> for Value {
    ghost words = { λ value. value_three (paper_value value) };

    #[tactic(auto, unfolding(paper::specs::Answer::pick))]
    fn words(self) -> [u64; 3] {
        match self {
            // 255: C's number of a null
            Value::Null => [255, 0, 0],
            Value::Integer(v) => [Tag::Integer as u64, v.cast_unsigned(), 0],
            Value::Real(_, bits) => [Tag::Real as u64, bits, 0],
            Value::Text(at, len) => [Tag::Text as u64, len as u64, at as u64],
            Value::Bool(b) => [Tag::Bool as u64, u64::from(b), 0],
            Value::Vector(at, dim) => [Tag::Vector as u64, dim as u64, at as u64],
        }
    }
}

// rowid, total, first page, bytes
impl Words<4> for (OverflowRef, usize) {
    ghost words = { λ (reference, bytes). reference_words (reference_values reference, bytes) };

    fn words(self) -> [u64; 4] {
        [
            self.0.rowid.cast_unsigned(),
            self.0.total_body_len,
            self.0.first_overflow_page as u64,
            self.1 as u64,
        ]
    }
}

// kind, rowid, columns or total, 0 or first page, bytes
impl Words<5> for PagedEntry {
    ghost words = { λ entry. paged_words (paged_values entry) };

    fn words(self) -> [u64; 5] {
        match self {
            PagedEntry::Local(head) => [
                Kind::Local as u64,
                head.rowid.cast_unsigned(),
                head.columns as u64,
                0,
                head.bytes as u64,
            ],
            PagedEntry::Overflow(reference, bytes) => [
                Kind::Overflow as u64,
                reference.rowid.cast_unsigned(),
                reference.total_body_len,
                reference.first_overflow_page as u64,
                bytes as u64,
            ],
        }
    }
}

// divider, child, bytes
impl Words<3> for (InteriorCell, usize) {
    ghost words = { λ (cell, bytes). interior_words (interior_values cell, bytes) };

    fn words(self) -> [u64; 3] {
        let (cell, taken) = self;
        [
            cell.divider_rowid.cast_unsigned(),
            cell.child_page as u64,
            taken as u64,
        ]
    }
}
