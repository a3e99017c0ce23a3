// The tag that opens a value block.
ghost use Rattle.cell.specs.Tag.{Tagged};

use paper::Refusal;

#[derive(Clone, Copy, PartialEq, Eq)]
pub enum Tag {
    Integer = 0,
    Real = 1,
    Text = 2,
    Bool = 3,
    Vector = 4,
}

impl TryFrom<u8> for Tag {
    type Error = Refusal;

    ghost try_from_gives = { Tagged };

    fn try_from(byte: u8) -> Result<Tag, Refusal> {
        match byte {
            0 => Ok(Tag::Integer),
            1 => Ok(Tag::Real),
            2 => Ok(Tag::Text),
            3 => Ok(Tag::Bool),
            4 => Ok(Tag::Vector),
            _ => Err(Refusal::UnknownTag),
        }
    }
}
