// Bytes in lent slices: the one at an index, whether all are the same, and all copied. Their laws stand in proofs/. Nothing here knows a chip or a script.
#![tactic(auto)]

ghost use Rattle.std.specs.Prelude.{◌≡◌, get_or, length};
ghost use Rattle.parts.specs.Parts.{all_are};

// The byte at an index, and 0 past the end.
pub fn byte_at(bytes: &[u8], i: usize) -> u8
    ensures { result ≡ get_or bytes.now i 0 }
{
    bytes.get(i).copied().unwrap_or(0)
}

// Whether every byte is that byte. All are looked at, whatever comes.
pub fn all_are(bytes: &[u8], byte: u8) -> bool
    ensures { result ≡ all_are byte bytes.now }
{
    let mut all = true;
    for b in bytes {
        all &= *b == byte;
    }
    all
}

// Every byte of dst becomes that of src. A loop: of two lent slices the compiler does not know that they are apart, so the library's copy is a
// call of memmove, which the archive does not ask for; and a cut has no stack left for a call.
pub fn copy(dst: &mut [u8], src: &[u8])
    requires { length dst.old ≡ length src.now }
    ensures { dst.new ≡ src.now }
{
    for (k, byte) in dst.iter_mut().enumerate() {
        *byte = src[k];
    }
}
