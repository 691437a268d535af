// What a program says where its input or its output fails.
use std::io;

// The system's words for an error, without its number, which stands behind them.
fn words_of(text: &str) -> &str {
    match text.find(" (os error ") {
        Some(end) => &text[..end],
        None => text,
    }
}

// Writes a line to standard error: what failed, as the caller names it, a colon and the system's words for it.
pub fn fail(rt: &(impl Eprint + Alloc), what: &str, error: io::Error) {
    let _ = match error.to_string(rt.alloc()) {
        Ok(text) => rt.eprintln(format_args!("{what}: {}", words_of(text.as_str()))),
        Err(_) => rt.eprintln(format_args!("{what}: {error}")),
    };
}
