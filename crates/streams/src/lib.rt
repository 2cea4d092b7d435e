// Standard input and output, as the programs use them: where one fails, a line on standard error says why. No clause knows what the system's streams
// hold, so what is read and what is written is no promise here.
#![tactic(auto)]

ghost use Rattle.std.specs.Prelude.{◌≤◌, length};

use std::io::{Error, Read};

// A line on standard error: what failed, and the system's word for it.
fn say_why(rt: &impl Eprint, what: &str, why: Error) {
    let _ = eprintln!(rt; "{what}: {why}");
}

// Whether standard input can be read: a read of no bytes fails where it is a folder or closed.
pub fn can_read(rt: &(impl Input + Eprint)) -> bool {
    match rt.reader().read(&mut []) {
        Ok(_) => true,
        Err(why) => {
            say_why(rt, "standard input", why);
            false
        }
    }
}

// Reads standard input into the buffer until it is full, the input ends or a read fails, and answers the part that was filled.
pub fn read_input<'a>(rt: &impl Input, into: &'a mut [u8]) -> &'a mut [u8]
    ensures { length result.now ≤ length into.old }
{
    let mut reader = rt.reader();
    let mut count: usize = 0;
    // The library's methods do not serve: read_to_end asks for a Vec, that is heap; after read_exact no count is known; bytes would be no plainer, since each
    // byte comes as a Result, to be put into its place by hand, and asks the system for each (vi_print took 13 ms of a sheet of 2,000 pairs, and takes 0.9 ms).
    while count < into.len() {
        match reader.read(&mut into[count..]) {
            Ok(0) | Err(_) => break,
            Ok(more) => count += more,
        }
    }
    &mut into[..count]
}

// Writes the bytes to standard output.
pub fn write_output(rt: &(impl Print + Eprint), bytes: &[u8]) {
    if let Err(why) = rt.write_all(bytes) {
        say_why(rt, "standard output", why);
    }
}
