// Reads a script from standard input and writes its log to standard output: model 1 with bench values, from power-on, all cells FF. The strict
// setting is off, unless the word strict asks for it.
#![tactic(auto)]

use play::Bench;

fn main(rt: HostRuntime) {
    let wish = words::asked(&rt);
    if words::answered(
        &rt,
        &rt.stderr(),
        wish,
        b"runner: it knows no words but --help and strict, and takes one of them\n",
        b"usage: runner [strict] <SCRIPT >LOG
Plays a script to a KH25L512 (model 1, bench values, from power-on, all cells FF) and writes down
what the chip answers. The script comes on standard input, the log goes to standard output.
  F, WP#, tail, bytes   a frame: WP# 0 or 1, 0 to 7 tail bits, 0 to 300 bytes in capital hex
  W, microseconds       so much time passes
  P                     power off and on again
One step a line, its fields parted by tabs. docs/GUIDE.md has the rest.
With the word strict a page program over old data is answered 19 and not done: some cell that it
reaches would not end up holding the byte that was sent to it.
",
    ) {
        return;
    }
    let mut page = [0xFFu8; 256];
    let mut array = [0xFFu8; 65536];
    let mut wear = [0u32; 16];
    // The bench is made here, since page data, array and wear table are this function's own.
    let mut bench = Bench {
        rec: states::bench_kh25l512(),
        strict: words::is_strict(wish),
        state: states::power_on(),
        page: &mut page,
        array: &mut array,
        wear: &mut wear,
    };
    input::play_input(&rt, &mut bench, true);
}
