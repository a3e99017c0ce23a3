// Fields at the start of a part of a slice: one load, one store. Each is one call of std; a trait over the two widths would be longer than the four.
ghost use Rattle.std.specs.Prelude.{◌≡◌, ◌≤◌, ◌++◌, length, drop};
ghost use Rattle.field.specs.Field.{le, bytes};

pub fn u32_at(s: &[u8]) -> u32
    requires { 4 ≤ length s.now }
    ensures { result ≡ le 4 0 s.now }
{
    u32::from_le_bytes(*s.first_chunk().unwrap())
}

pub fn u64_at(s: &[u8]) -> u64
    requires { 8 ≤ length s.now }
    ensures { result ≡ le 8 0 s.now }
{
    u64::from_le_bytes(*s.first_chunk().unwrap())
}

#[tactic(auto, unfolding(crate::specs::Field::bytes))]
pub fn put_u32(out: &mut [u8], v: u32)
    requires { 4 ≤ length out.old }
    ensures { out.new ≡ bytes 4 v ++ drop 4 out.old }
{
    out[..4].copy_from_slice(&v.to_le_bytes());
}

#[tactic(auto, unfolding(crate::specs::Field::bytes))]
pub fn put_u64(out: &mut [u8], v: u64)
    requires { 8 ≤ length out.old }
    ensures { out.new ≡ bytes 8 v ++ drop 8 out.old }
{
    out[..8].copy_from_slice(&v.to_le_bytes());
}
