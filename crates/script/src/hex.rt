// Hex digits, in capitals.
ghost use Rattle.std.specs.Prelude.{◌≡◌, ◌<◌};
ghost use Rattle.script.specs.Hex.{is_hex, nibble_of, Unhexed};

#[tactic(auto, unfolding(crate::specs::Hex::is_hex, crate::specs::Hex::is_digit, crate::specs::Hex::is_capital))]
pub fn is_hex(b: u8) -> bool
    ensures { result ≡ is_hex b }
{
    matches!(b, b'0'..=b'9' | b'A'..=b'F')
}

// The value of a hex digit; 0 of any other byte.
#[tactic(auto, unfolding(crate::specs::Hex::nibble_of, crate::specs::Hex::is_digit, crate::specs::Hex::is_capital))]
fn nibble(b: u8) -> u8
    ensures value { result ≡ nibble_of b }
    ensures below { result < 16 }
{
    match b {
        b'0'..=b'9' => b - b'0',
        b'A'..=b'F' => b - 55,
        _ => 0,
    }
}

// The bytes of hex digits, at the start of out, as many as it has room for; and how many those are.
pub fn unhex(digits: &[u8], out: &mut [u8]) -> usize
    ensures { Unhexed digits.now out.old out.new result }
{
    let n = out.len().min(digits.len() / 2);
    for k in 0..n {
        out[k] = nibble(digits[2 * k]) * 16 + nibble(digits[2 * k + 1]);
    }
    n
}
