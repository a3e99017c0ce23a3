// Text: UTF-8.
ghost use Rattle.std.specs.Prelude.{◌≡◌};
ghost use Rattle.utf8.specs.WellFormed.{check_text};
ghost use Rattle.seremonek.specs.Interface.{code_of};

use crate::inner::reply;

pub fn smk_utf8_check(bytes: &[u8]) -> u32
    ensures { result ≡ code_of (check_text bytes.now) }
{
    reply(utf8::check(bytes), &mut [])
}
