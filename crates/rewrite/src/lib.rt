// Scripts rewritten for models 1 and 2, which do not take 52 any more (Req 11): a line whose frame begins with 52 begins with D8.
#![tactic(auto)]

ghost use Rattle.std.specs.Prelude.{◌≡◌, ◌+◌, ◌≤◌, length, get_or, drop};
ghost use Rattle.script.specs.Hex.{hex_bytes};
ghost use Rattle.rewrite.specs.Rewriting.{begins52, LineRewritten};

use script::Line;
use text::Sheet;

// The first byte of a frame's line, and 0 where it has none.
fn first_byte(line: &[u8]) -> u8
    ensures { result ≡ get_or (hex_bytes (drop 6 line.now)) 0 0 }
{
    let mut first = [0u8; 1];
    script::frame_bytes(line, &mut first);
    first[0]
}

// Whether a line is a well-formed frame's that begins with 52.
#[tactic(auto, unfolding(crate::specs::Rewriting::begins52))]
fn begins_52(line: &[u8]) -> bool
    ensures { result ≡ begins52 line.now }
{
    match script::read_line(line) {
        Some(Line::Frame { .. }) => first_byte(line) == 0x52,
        _ => false,
    }
}

// Rewrites a line in place, without its newline; where it changes, its number goes onto the report. The rest of a long line, whose first bytes
// went before, stays.
#[tactic(auto, using(crate::proofs::Lines::begins_long))]
pub fn rewrite_line(line: &mut [u8], long: bool, number: u64, report: &mut Sheet)
    requires { (report.old.at ≤ length report.old.out.now) × (8 ≤ length line.old → report.old.at + 21 ≤ length report.old.out.now) }
    ensures same_buffer { report.new.out.ghost_name ≡ report.old.out.ghost_name }
    ensures same_length { length report.new.out.now ≡ length report.old.out.now }
    ensures rewritten { LineRewritten long number line.old report.old.out.now report.old.at report.new.at line.new report.new.out.now }
{
    if long {
        return;
    }
    if !begins_52(line) {
        return;
    }
    line[6..8].copy_from_slice(b"D8");
    report.number(number);
    report.byte(b'\n');
}
