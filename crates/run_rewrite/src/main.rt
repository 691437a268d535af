// Rewrites a script from standard input for models 1 and 2, which do not take 52 any more, and writes it to standard output; the numbers of the
// lines that changed go to standard error.
#![tactic(auto)]

use rewrite_blocks::Progress;
use std::io::Read;

// Writes a part of the new script; whether it was taken. Where it was not, standard error says so.
fn write_script(rt: HostRuntime, part: &[u8]) -> bool {
    match rt.write_all(part) {
        Ok(()) => true,
        Err(error) => {
            words::fail(&rt, "rewrite: standard output", error);
            false
        }
    }
}

// A block; an empty one is the input's end.
fn rewrite_next(
    run: Progress,
    block: &[u8],
    out: &mut [u8],
    report: &mut [u8],
) -> Option<Progress> {
    if block.is_empty() {
        rewrite_blocks::finish(run, out, report)
    } else {
        rewrite_blocks::rewrite_block(run, block, out, report)
    }
}

// Reads a block, and writes what comes of it; None where the script does not go on. Where standard error does not take the report the
// script goes on all the same.
fn read_block(
    rt: HostRuntime,
    run: Progress,
    block: &mut [u8],
    out: &mut [u8],
    report: &mut [u8],
) -> Option<Progress> {
    let n = match rt.stdin().read(block) {
        Ok(n) => n,
        Err(error) => {
            words::fail(&rt, "rewrite: standard input", error);
            return None;
        }
    };
    let Some(next) = rewrite_next(run, &block[..n], out, report) else {
        let _ = rt.stderr().write_all(b"rewrite: a buffer is too short\n");
        return None;
    };
    if !write_script(rt, out.get(..next.at)?) {
        return None;
    }
    if let Some(told) = report.get(..next.told) {
        let _ = rt.stderr().write_all(told);
    }
    if n > 0 { Some(next) } else { None }
}

// Block after block.
fn rewrite_input(rt: HostRuntime) {
    let mut block = [0u8; 4096];
    let mut out = [0u8; 65536];
    let mut report = [0u8; 65536];
    let mut run = rewrite_blocks::first();
    for _ in 0..u64::MAX {
        let Some(next) = read_block(rt, run, &mut block, &mut out, &mut report) else {
            return;
        };
        run = next;
    }
}

fn main(rt: HostRuntime) {
    let wish = words::without_strict(words::asked(&rt));
    if words::answered(
        &rt,
        &rt.stderr(),
        wish,
        b"rewrite: it knows no word but --help\n",
        b"usage: rewrite <SCRIPT >NEW_SCRIPT 2>CHANGED_LINES
Rewrites a script for a KH25L512 or a KH25L2006E, which do not take the command 52 any more: a frame
that begins with 52 begins with D8, which erases the same 64 KiB. No other byte changes; lines that
are not well formed stay as they are. The script comes on standard input, the new one goes to
standard output, and the numbers of the lines that changed to standard error, one a line.
A script for a KH25L12845G needs no rewriting: there 52 erases 32 KiB.
",
    ) {
        return;
    }
    rewrite_input(rt);
}
