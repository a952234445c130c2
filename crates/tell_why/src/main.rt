// Reads receptions.bin, clock.bin, altitude.bin and reference.bin from a folder, and writes why each receiver is used
// or missing to standard output: 8 bytes, the answer number and its detail, u32 each, a buffer of 640 bytes with the
// states of the receptions (document 02, item 9), zeros past the last. `./why` shows it to a person.
//
//     tell_why [FOLDER]    the current folder, if none is named
//
// A file that is absent is an absent input. One that is there and cannot be read is said on standard error, as are a
// folder that cannot be opened and other arguments, and then nothing is written. An output that fails is said there.
#![tactic(auto)]

use std::rt::Files;

// Number, detail and states, to standard output.
fn write<R: Print + Eprint + Alloc>(rt: &R, head: &[u8], states: &[u8]) {
    let result = rt.write_all(head).and_then(|()| rt.write_all(states));
    host::written(rt, result, b"tell_why: standard output");
}

// Tells of the folder's problem, if all of its files that are there can be read.
fn tell<R: Files + Print + Eprint + Alloc>(rt: &R, folder: &[u8]) {
    let mut rs = [0u8; folder::ONE_TOO_MANY];
    let mut cs = [0u8; 8193];
    let mut al = [0u8; 17];
    let mut re = [0u8; 9];
    let mut head = [0u8; 8];
    let mut states = [0u8; 640];
    let mut detail = 0u32;
    let Ok(p) = folder::read_receptions(rt, folder, &mut rs) else {
        return;
    };
    let clock = folder::read_file(rt, folder, b"clock.bin", &mut cs);
    let altitude = folder::read_file(rt, folder, b"altitude.bin", &mut al);
    let reference = folder::read_file(rt, folder, b"reference.bin", &mut re);
    if let (Ok(c), Ok(a), Ok(r)) = (clock, altitude, reference) {
        let number = why::why(
            &rs[..p.unwrap_or(0)],
            &cs[..c.unwrap_or(0)],
            &al[..a.unwrap_or(0)],
            &re[..r.unwrap_or(0)],
            folder::present(c.is_some(), a.is_some(), r.is_some()),
            &mut states,
            &mut detail,
        );
        words::put_u32(&mut head, 0, number);
        words::put_u32(&mut head, 4, detail);
        write(rt, &head, &states);
    }
}

// Whether a word names a folder: it is not empty, and no option.
fn is_name(word: &[u8]) -> bool {
    word.first().is_some_and(|byte| *byte != b'-')
}

fn main(rt: HostRuntime) {
    let mut path = host::buffer();
    let n = host::arg(&rt, 1, &mut path);
    let count = host::arg_count(&rt);
    if count < 2 {
        tell(&rt, b".");
    } else if count == 2 && is_name(&path[..n]) {
        tell(&rt, &path[..n]);
    } else {
        host::say(
            &rt,
            "usage: tell_why [FOLDER], a folder with receptions.bin, clock.bin, altitude.bin, reference.bin\n",
        );
    }
}
