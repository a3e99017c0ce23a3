// The plain form: Unicode's Table 3-7, row by row.
ghost use Rattle.std.specs.Prelude.{◌≡◌, ◌<◌, false, length, MatchOption};
ghost use Rattle.paper.specs.Answer.{answer_of};
ghost use Rattle.utf8.specs.WellFormed.{well_formed, check_text};

use paper::Refusal;

// What stands behind the row at the start of s, if one stands there.
fn past_row(s: &[u8]) -> Option<&[u8]>
    requires { 0 < length s.now }
    ensures { MatchOption result (well_formed s.now ≡ false) (λ rest. (length rest.now < length s.now) × (well_formed rest.now ≡ well_formed s.now)) }
{
    match s {
        [0x00..=0x7F, ..] => Some(&s[1..]),
        [0xC2..=0xDF, 0x80..=0xBF, ..] => Some(&s[2..]),
        [0xE0, 0xA0..=0xBF, 0x80..=0xBF, ..] => Some(&s[3..]),
        [0xE1..=0xEC, 0x80..=0xBF, 0x80..=0xBF, ..] => Some(&s[3..]),
        [0xED, 0x80..=0x9F, 0x80..=0xBF, ..] => Some(&s[3..]),
        [0xEE..=0xEF, 0x80..=0xBF, 0x80..=0xBF, ..] => Some(&s[3..]),
        [0xF0, 0x90..=0xBF, 0x80..=0xBF, 0x80..=0xBF, ..] => Some(&s[4..]),
        [0xF1..=0xF3, 0x80..=0xBF, 0x80..=0xBF, 0x80..=0xBF, ..] => Some(&s[4..]),
        [0xF4, 0x80..=0x8F, 0x80..=0xBF, 0x80..=0xBF, ..] => Some(&s[4..]),
        _ => None,
    }
}

// Text, or NotUtf8.
#[tactic(auto, using(crate::proofs::Laws::empty_text), unfolding(crate::specs::WellFormed::check_text, paper::specs::Answer::pick))]
pub fn check(bytes: &[u8]) -> Result<(), Refusal>
    ensures { answer_of result ≡ check_text bytes.now }
{
    let mut rest = bytes;
    while !rest.is_empty() {
        rest = past_row(rest).ok_or(Refusal::NotUtf8)?;
    }
    Ok(())
}
