#![tactic(auto)]

// UTF-8. Unicode's Table 3-7 of well-formed byte sequences decides; it stands in specs/Table.antt.
// Two forms of the check make the same promise: `plain` goes by the table's rows, `inner` is the quick one, and proofs/Forms.antt shows that they answer the same.
pub mod inner;
pub mod plain;

ghost use Rattle.std.specs.Prelude.{◌≡◌};
ghost use Rattle.paper.specs.Answer.{answer_of};
ghost use Rattle.utf8.specs.WellFormed.{check_text, check_at};

use paper::Refusal;

// Text, or NotUtf8: the quick form.
#[inline(always)]
#[tactic(auto, unfolding(crate::specs::WellFormed::check_text, paper::specs::Answer::pick))]
pub fn check(bytes: &[u8]) -> Result<(), Refusal>
    ensures { answer_of result ≡ check_text bytes.now }
{
    if inner::accepted(bytes) {
        Ok(())
    } else {
        Err(Refusal::NotUtf8)
    }
}

// The len bytes from place at. ValueCutShort where they do not all lie inside, whatever at + len comes to.
#[tactic(auto, using(crate::proofs::Laws::at_outside))]
pub fn check_at(buf: &[u8], at: usize, len: usize) -> Result<(), Refusal>
    ensures { answer_of result ≡ check_at buf.now at len }
{
    let Some(behind) = buf.get(at..) else {
        return Err(Refusal::ValueCutShort);
    };
    let Some(bytes) = behind.get(..len) else {
        return Err(Refusal::ValueCutShort);
    };
    check(bytes)
}
