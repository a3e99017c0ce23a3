// The frame of an entry: its length, and the body behind it.
ghost use Rattle.cell.specs.Framing.{Frame};

use paper::Refusal;
use varint::inner::value_at;

// Where an entry's body starts and ends.
#[derive(Clone, Copy)]
pub struct Framed {
    pub at: usize,
    pub end: usize,
}

// The frame of the entry at the start of `s`: its length (1, 2), and a body that lies inside (3).
#[tactic(auto, using(crate::proofs::Framing::framing), unfolding(crate::specs::Entry::framed, paper::specs::Answer::and_then, paper::specs::Answer::pick))]
pub fn frame(s: &[u8]) -> Result<Framed, Refusal>
    ensures { Frame s.now result }
{
    let (size, at) = value_at(s, 0)?;
    let size = size as usize;
    if s.len() - at < size {
        return Err(Refusal::EntryPastEnd);
    }
    Ok(Framed { at, end: at + size })
}
