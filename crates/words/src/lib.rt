// Numbers in bytes: "Numbers are little-endian".
#![tactic(auto)]

ghost use Rattle.std.specs.Prelude.{◌≡◌, ◌+◌, ◌≤◌, ◌<◌, length};
ghost use Rattle.model.specs.Bytes as Bytes;

// The number in 2 bytes from place i on.
#[tactic(auto, unfolding(model::specs::Bytes::number))]
pub fn half_word(s: &[u8], i: usize) -> u32
    requires { i + 2 ≤ length s.now }
    ensures { (result ≡ Bytes.number 2 s.now i) × (result < 65536) }
{
    u32::from(s[i]) + 256 * u32::from(s[i + 1])
}

// The number in 4 bytes from place i on.
pub fn word(s: &[u8], i: usize) -> u32
    requires { i + 4 ≤ length s.now }
    ensures { result ≡ Bytes.number 4 s.now i }
{
    half_word(s, i) + 65536 * half_word(s, i + 2)
}
