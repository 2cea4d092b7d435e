// The printing program: reads a sheet from standard input, works it, and writes its text to standard output. What is written is the
// crate `report`'s promise.
#![tactic(auto)]

fn main(rt: HostRuntime) {
    if !streams::can_read(&rt) {
        return;
    }
    let mut input = [0u8; report::INPUT_SIZE];
    let sheet = streams::read_input(&rt, &mut input);
    let mut text = report::Text::new();
    report::print_sheet(sheet, &mut text);
    streams::write_output(&rt, text.as_bytes());
}
