// The working program: reads a sheet from standard input, and writes its bytes to standard output, worked. What they are is the crate
// `sheet`'s promise. A sheet that is refused, and input that vi_print would not work either, is not written: standard error says so.
#![tactic(auto)]

fn work(rt: &HostRuntime, sheet: &mut [u8]) {
    if sheet.len() > report::MOST_INPUT {
        let _ = eprintln!(rt; "not worked: the input is longer than 65,536 bytes");
        return;
    }
    match sheet::work_sheet(sheet) {
        Ok(_) => streams::write_output(rt, sheet),
        Err(_) => {
            let _ = eprintln!(rt; "not worked: the sheet is refused; vi_print prints the number");
        }
    }
}

fn main(rt: HostRuntime) {
    if !streams::can_read(&rt) {
        return;
    }
    let mut input = [0u8; report::INPUT_SIZE];
    let sheet = streams::read_input(&rt, &mut input);
    work(&rt, sheet);
}
