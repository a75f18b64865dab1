// The measuring program (SPECIFICATION, Measuring program): the font is the file `font.bin` of
// the working folder, the text is standard input as it stands, and one line tells what the text
// measures. What the line says is proved in `measure_program` and `measure_line`.
#![tactic(auto)]

use measure_program::measure_file;

fn main(rt: HostRuntime) {
    measure_file(&rt, b"font.bin", &mut rt.reader());
}
