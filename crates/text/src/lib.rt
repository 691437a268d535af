// Text written into a lent buffer.
#![tactic(auto)]

ghost use Rattle.std.specs.Prelude.{◌≡◌, ◌∷◌, [], ◌+◌, ◌*◌, ◌≤◌, ◌<◌, length, replicate};
ghost use Rattle.text.specs.Text.{digit_of, hex_text, decimal_text};
ghost use Rattle.text.specs.Put.{Put};

// A lent buffer and the place where the next text goes. Each method puts its text there, leaves the rest as it was, and moves the place
// past it. The room is the caller's to test, once for a whole row.
#[derive(Drop)]
pub struct Sheet<'a> {
    out: &'a mut [u8],
    at: usize,
}

impl<'a> Sheet<'a> {
    pub fn new(out: &'a mut [u8], at: usize) -> Sheet<'a>
        ensures same_buffer { result.out.ghost_name ≡ out.entry.ghost_name }
        ensures holds { result.out.now ≡ out.old }
        ensures place { result.at ≡ at }
    {
        Sheet { out, at }
    }

    pub fn end(&self) -> usize
        ensures { result ≡ self.now.at }
    {
        self.at // the place past what was put
    }

    // One byte.
    #[tactic(auto, using(crate::proofs::PutLaws::put_one))]
    pub fn byte(&mut self, b: u8)
        requires { self.old.at < length self.old.out.now }
        ensures same_buffer { self.new.out.ghost_name ≡ self.old.out.ghost_name }
        ensures same_length { length self.new.out.now ≡ length self.old.out.now }
        ensures put { Put (b ∷ []) self.old.out.now self.old.at self.new.out.now self.new.at }
    {
        self.out[self.at] = b;
        self.at += 1;
    }

    // The bytes of text, as they are.
    #[tactic(auto, using(crate::proofs::PutLaws::put_part))]
    pub fn text(&mut self, text: &[u8])
        requires { self.old.at + length text.now ≤ length self.old.out.now }
        ensures same_buffer { self.new.out.ghost_name ≡ self.old.out.ghost_name }
        ensures same_length { length self.new.out.now ≡ length self.old.out.now }
        ensures put { Put text.now self.old.out.now self.old.at self.new.out.now self.new.at }
    {
        let end = self.at + text.len();
        self.out[self.at..end].copy_from_slice(text);
        self.at = end;
    }

    // One byte n times.
    #[tactic(auto, using(crate::proofs::PutLaws::put_run))]
    pub fn run(&mut self, b: u8, n: usize)
        requires { self.old.at + n ≤ length self.old.out.now }
        ensures same_buffer { self.new.out.ghost_name ≡ self.old.out.ghost_name }
        ensures same_length { length self.new.out.now ≡ length self.old.out.now }
        ensures put { Put (replicate n b) self.old.out.now self.old.at self.new.out.now self.new.at }
    {
        let end = self.at + n;
        self.out[self.at..end].fill(b);
        self.at = end;
    }

    // n in decimal.
    pub fn number(&mut self, n: u64)
        requires { self.old.at + 20 ≤ length self.old.out.now }
        ensures same_buffer { self.new.out.ghost_name ≡ self.old.out.ghost_name }
        ensures same_length { length self.new.out.now ≡ length self.old.out.now }
        ensures put { Put (decimal_text n) self.old.out.now self.old.at self.new.out.now self.new.at }
        ensures most { self.new.at ≤ self.old.at + 20 }
    {
        let mut room = [0; 20];
        self.text(digits(n, &mut room));
    }

    // Two hex digits for each of bytes.
    pub fn hex(&mut self, bytes: &[u8])
        requires { self.old.at + 2 * length bytes.now ≤ length self.old.out.now }
        ensures same_buffer { self.new.out.ghost_name ≡ self.old.out.ghost_name }
        ensures same_length { length self.new.out.now ≡ length self.old.out.now }
        ensures put { Put (hex_text bytes.now) self.old.out.now self.old.at self.new.out.now self.new.at }
    {
        for b in bytes {
            self.byte(digit(b / 16));
            self.byte(digit(b % 16));
        }
    }
}

// n in decimal, from its last digit back, in a room that is lent for it.
pub fn digits(n: u64, room: &mut [u8; 20]) -> &[u8]
    ensures value { result.now ≡ decimal_text n }
    ensures few { length result.now ≤ 20 }
{
    let mut start = 20;
    let mut rest = n;
    while rest >= 10 {
        start -= 1;
        room[start] = b'0' + (rest % 10) as u8;
        rest /= 10;
    }
    start -= 1;
    room[start] = b'0' + rest as u8;
    &room[start..]
}

// A hex digit; `A` is 55 + 10.
fn digit(d: u8) -> u8
    requires { d < 16 }
    ensures { result ≡ digit_of d }
{
    if d < 10 { b'0' + d } else { 55 + d }
}
