// Prints the number that the reader gives to the record on standard input: 0 where it is taken apart, 16 where it is
// not 176 bytes long, 18 where it breaks a rule (document 02, item 1). It takes no arguments. An input that cannot be
// read is said on standard error, and then nothing is printed; so is an output that fails.
#![tactic(auto)]

use std::io::Read;

// Whether reading on does not fail; where it does, that is said.
fn sound<R: Eprint + Alloc>(rt: &R, input: &mut impl Read) -> bool {
    host::sound(rt, input, b"check_record: standard input")
}

fn print<R: Print + Eprint + Alloc>(rt: &R, answer: u32) {
    host::written(
        rt,
        println!(rt; "{answer}"),
        b"check_record: standard output",
    );
}

fn main(rt: HostRuntime) {
    let mut input = rt.stdin();
    let mut bytes = [0u8; 177];
    if host::arg_count(&rt) > 1 {
        host::say(&rt, "usage: check_record <RECORD\n");
    } else {
        let n = host::read_full(&mut input, &mut bytes);
        let answer = refusals::answer(reader::read(&bytes[..n]));
        if sound(&rt, &mut input) {
            print(&rt, answer);
        }
    }
}
