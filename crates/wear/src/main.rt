// Reads a script from standard input, as the runner does, and writes the wear sheet of its chip to standard output: how often each sector was
// erased. Model 1 with bench values, from power-on, all cells FF, every count 0; strict where the word strict asks for it. Where the input
// fails there is no sheet.
#![tactic(auto)]

use play::Bench;

fn main(rt: HostRuntime) {
    let wish = words::asked(&rt);
    if words::answered(
        &rt,
        &rt.stderr(),
        wish,
        b"wear: it knows no words but --help and strict, and takes one of them\n",
        b"usage: wear [strict] <SCRIPT >SHEET
Plays a script to a KH25L512 (model 1, bench values, from power-on, all cells FF) and writes its wear
sheet: how often each sector was erased, with a bar, then the total, the smallest and the largest count
with its first sector, and the mean. A mark of a bar is one erase; where a sector has more than 50,
the longest bar has 50 marks and the others are to scale.
The script comes on standard input, the sheet goes to standard output. A script is what the runner
takes: runner --help says its lines, docs/GUIDE.md has the rest.
With the word strict it plays the script as the runner with that word: a page program over old data
is refused.
",
    ) {
        return;
    }
    let mut page = [0xFFu8; 256];
    let mut array = [0xFFu8; 65536];
    let mut wear = [0u32; 16];
    // The bench is made here, since page data, array and wear table are this function's own.
    let mut bench = Bench {
        rec: states::bench_kh25l512(),
        strict: words::is_strict(wish),
        state: states::power_on(),
        page: &mut page,
        array: &mut array,
        wear: &mut wear,
    };
    if input::play_input(&rt, &mut bench, false) {
        let mut sheet = [0u8; 65536];
        let end = wear_rows::put_sheet(&wear, &mut sheet, 0);
        input::write_first(&rt, &sheet, end);
    }
}
