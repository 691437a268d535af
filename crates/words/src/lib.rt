// The words that a program is started with: none, --help or strict; and what it says where its input or its output fails.
#![tactic(auto)]

mod failing;

ghost use Rattle.std.specs.Prelude.{◌≡◌};
ghost use Rattle.words.specs.Words.{wish_of, is_strict, without_strict, asks_no_run};

pub use failing::fail;
use std::env::{Env, FillError};

// What they ask for: a run, with the strict setting off or on, or how the program is used; or nothing that it knows.
#[derive(Clone, Copy, PartialEq, Eq)]
pub enum Wish {
    Run,
    Strict,
    Help,
    Unknown,
}

// What is asked for by so many words, the program's own name among them, if the next one is this and was read whole.
fn wish_of(count: usize, whole: bool, word: &[u8]) -> Wish
    ensures { result ≡ wish_of count whole word.now }
{
    if count < 2 {
        return Wish::Run;
    }
    let alone = (count == 2) & whole;
    if alone & (word == b"strict".as_slice()) {
        return Wish::Strict;
    }
    if alone & (word == b"--help".as_slice()) {
        return Wish::Help;
    }
    Wish::Unknown
}

// How many words the program was started with, its own name among them.
fn word_count(env: &impl Env) -> usize {
    for i in 0..usize::MAX {
        if let Err(FillError::NotPresent) = env.arg(i, &mut []) {
            return i;
        }
    }
    usize::MAX
}

// What the program was started with asks for: which words those are is the system's to say, and no contract's.
pub fn asked(env: &impl Env) -> Wish {
    let mut word = [0u8; 6];
    let count = word_count(env);
    match env.arg(1, &mut word) {
        Ok(n) => wish_of(count, true, &word[..n]),
        Err(_) => wish_of(count, false, b""),
    }
}

// Whether a run is asked for with the strict setting on.
pub fn is_strict(wish: Wish) -> bool
    ensures { result ≡ is_strict wish }
{
    wish == Wish::Strict
}

// The same of a program that has no strict setting: it does not know that word.
pub fn without_strict(wish: Wish) -> Wish
    ensures { result ≡ without_strict wish }
{
    match wish {
        Wish::Strict => Wish::Unknown,
        other => other,
    }
}

// Whether no run is asked for, and so the program has no more to do. --help shows its use on `out`, standard output; words that it does not know
// what is said of them, and the use, on `err`, standard error.
pub fn answered(
    out: &impl Print,
    err: &impl Print,
    wish: Wish,
    unknown: &[u8],
    usage: &[u8],
) -> bool
    ensures { result ≡ asks_no_run wish }
{
    match wish {
        Wish::Run => false,
        Wish::Strict => false,
        Wish::Help => {
            let _ = out.write_all(usage);
            true
        }
        Wish::Unknown => {
            let _ = err.write_all(unknown);
            let _ = err.write_all(usage);
            true
        }
    }
}
