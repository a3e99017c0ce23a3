// The quick form. ASCII is passed over, and whatever else is read by a machine of nine states (specs/Machine.antt).
ghost use Rattle.std.specs.Prelude.{◌≡◌, true, ◌↔◌, ◌-◌, ◌^◌, ◌≤◌, ◌<◌, length, take, drop, fold, IsTrue, IsAscii};
ghost use Rattle.utf8.specs.WellFormed.{after, whole, well_formed};
ghost use Rattle.utf8.specs.Ascii.{Past, Plain};

use std::marker::Model;

// ---- ASCII

// Each byte is looked at, with no early end: that compiles to a few wide steps, where `is_ascii` is a call. This and the passing over of ASCII
// are laid out in their callers, since at a call a slice costs as much as a text of a few words.
#[inline(always)]
fn only_ascii<const N: usize>(bytes: &[u8; N]) -> bool
    ensures { IsTrue result ↔ IsAscii bytes.now }
{
    bytes.iter().fold(0, |all, byte| all | *byte) < 0x80
}

// What stands behind the ASCII that s begins with, by whole parts of N bytes.
#[inline(always)]
fn past<const N: usize>(s: &[u8]) -> &[u8]
    requires nonzero { 0 < N }
    requires size_fits { N < 2 ^ 63 }
    ensures past { Past s.now result.now }
    ensures stops { N ≤ length result.now → ¬ (IsAscii (take N result.now)) }
{
    let mut rest = s;
    while let Some((part, more)) = rest.split_first_chunk::<N>()
        && only_ascii(part)
    {
        rest = more;
    }
    rest
}

// The same by whole words: eight at a time, and then each.
#[inline(always)]
fn past_ascii(s: &[u8]) -> &[u8]
    ensures past { Past s.now result.now }
    ensures stops { 8 ≤ length result.now → ¬ (IsAscii (take 8 result.now)) }
{
    past::<8>(past::<64>(s))
}

// Whether the last eight bytes are ASCII, or all where there are fewer.
#[inline(always)]
fn ends_in_ascii(s: &[u8]) -> bool
    ensures { IsTrue result ↔ IsAscii (drop (length s.now - 8) s.now) }
{
    match s.last_chunk::<8>() {
        Some(word) => only_ascii(word),
        None => s.is_ascii(),
    }
}

// Whether all of it is ASCII.
#[inline(always)]
pub fn all_ascii(s: &[u8]) -> bool
    ensures { result ≡ true → Plain s.now 0 (length s.now) }
{
    past_ascii(s).len() < 8 && ends_in_ascii(s)
}

// ---- the machine

// The chart and the moves are numbers and no enums, for speed: a step is two loads and a shift.

// A chart of the bytes 00 to FF, sixteen to a line: bytes that no row of the table tells apart have one letter, and - stands for those in no row.
// The low four bits of a letter number its class: p is 0, a is 1, and - is 13.
static CHART: [u8; 256] = *b"\
    pppppppppppppppp\
    pppppppppppppppp\
    pppppppppppppppp\
    pppppppppppppppp\
    pppppppppppppppp\
    pppppppppppppppp\
    pppppppppppppppp\
    pppppppppppppppp\
    aaaaaaaaaaaaaaaa\
    bbbbbbbbbbbbbbbb\
    cccccccccccccccc\
    cccccccccccccccc\
    --dddddddddddddd\
    dddddddddddddddd\
    effffffffffffgff\
    hiiij-----------";

// From every state into that of no row.
const NO_ROW: u64 = 0o06_06_06_06_06_06_06_06_06;

// Where a byte of each class leads from each state: two octal digits to a state, the first state's last.
static MOVES: [u64; 16] = [
    0o06_06_06_06_06_06_06_06_00,
    0o22_22_06_14_06_14_00_06_06,
    0o06_22_22_14_06_14_00_06_06,
    0o06_22_22_06_14_14_00_06_06,
    0o06_06_06_06_06_06_06_06_14,
    0o06_06_06_06_06_06_06_06_30,
    0o06_06_06_06_06_06_06_06_22,
    0o06_06_06_06_06_06_06_06_36,
    0o06_06_06_06_06_06_06_06_44,
    0o06_06_06_06_06_06_06_06_52,
    0o06_06_06_06_06_06_06_06_60,
    NO_ROW,
    NO_ROW,
    NO_ROW,
    NO_ROW,
    NO_ROW,
];

// What is left of the row that was begun. It is a number and no enum, so that a byte costs a shift and no jump: the low six bits count,
// and the others are what a shift left there.
#[derive(Drop)]
struct State {
    bits: u64,
}

impl Model for State {
    ghost use Rattle.std.specs.Prelude.{IsTrue};
    ghost use Rattle.std.proofs.Math.Option.{Option};
    ghost use Rattle.utf8.specs.Table.{Row};
    ghost use Rattle.utf8.specs.Machine.{is_state, left_by};

    ghost Value = { Option Row };

    ghost view = { λ s. left_by s.bits };

    ghost invariant = { λ s. IsTrue (is_state s.bits) };
}

impl State {
    ghost use Rattle.std.specs.Prelude.{[]};
    ghost use Rattle.std.proofs.Math.Option.{some};
    ghost use Rattle.utf8.specs.Machine.{no_row};

    #[tactic(auto, using(crate::proofs::Machine::starts))]
    fn start() -> State
        ensures { result ≡ some [] }
    {
        State { bits: 0 }
    }

    fn step(self, byte: u8) -> State
        ensures { result ≡ after self byte }
    {
        let class = CHART[byte as usize] as usize % 16;
        State {
            bits: MOVES[class] >> (self.bits % 64),
        }
    }

    fn read(self, s: &[u8]) -> State
        ensures { result ≡ fold after self s.now }
    {
        s.iter().fold(self, |state, byte| state.step(*byte))
    }

    #[tactic(auto, using(crate::proofs::Machine::whole_test))]
    fn is_whole(&self) -> bool
        ensures { result ≡ whole self.now }
    {
        self.bits % 64 == 0
    }

    // Whether the bytes were of no row: then no more of them make it a text.
    #[tactic(auto, using(crate::proofs::Machine::dead_test))]
    fn is_dead(&self) -> bool
        ensures { result ≡ no_row self.now }
    {
        self.bits % 64 == 6
    }
}

// ---- texts

// Word by word, so that the end of a text is not read where the start is none. What is shorter than a word is passed over byte by byte as long
// as it is ASCII. It stays a call, so that texts of ASCII save no registers for it.
#[inline(never)]
fn judged(s: &[u8]) -> bool
    ensures { result ≡ well_formed s.now }
{
    if s.len() < 8 {
        return State::start().read(past::<1>(s)).is_whole();
    }
    let mut rest = s;
    let mut state = State::start();
    while let Some((word, more)) = rest.split_first_chunk::<8>() {
        state = state.read(word);
        if state.is_dead() {
            return false;
        }
        rest = if state.is_whole() {
            past_ascii(more)
        } else {
            more
        };
    }
    state.read(rest).is_whole()
}

#[inline(always)]
pub fn accepted(s: &[u8]) -> bool
    ensures { result ≡ well_formed s.now }
{
    let rest = past_ascii(s);
    if rest.len() < 8 && ends_in_ascii(s) {
        return true;
    }
    judged(rest)
}
