// Repacks the trace on standard input to standard output. Where it is refused nothing is written there, and standard
// error has the refusal. An input of over 32,768 bytes is refused by its length alone. Reading or writing that fails is
// said on standard error, and then nothing else is written.
#![tactic(auto)]

use lines::Cursor;
use std::io::Write;

// Says why there is no repacked trace.
fn fail<E: Write>(errors: &mut E, sentence: &[u8]) {
    let _ = files::output::write(errors, sentence, sentence.len());
}

// The line of a refusal.
fn refuse<E: Write>(errors: &mut E, number: u8, place: usize) {
    let mut line = [0u8; 64];
    let mut end = Cursor::new(&mut line, 0);
    item_lines::put_end(&mut end, number, place);
    let n = end.place();
    let _ = files::output::write(errors, &line, n);
}

fn write_packed<O: Write, E: Write>(output: &mut O, errors: &mut E, packed: &[u8], n: usize) {
    if files::output::write(output, packed, n).is_ok() {
        return;
    }
    fail(errors, b"pack: standard output could not be written\n");
}

fn pack<O: Write, E: Write>(output: &mut O, errors: &mut E, input: &[u8]) {
    if 32768 < input.len() {
        refuse(errors, 2, 0);
        return;
    }
    let mut room = [0u32; 27648];
    let mut bytes = [0u8; 32768];
    let packed = packer::repack(input, &mut room, &mut bytes);
    match packed {
        Err(refused) => refuse(errors, refused.number, refused.place),
        Ok(length) => write_packed(output, errors, &bytes, length),
    }
}

fn main(rt: HostRuntime) {
    let mut buffer = [0u8; 32769];
    let mut output = rt.stdout();
    let mut errors = rt.stderr();
    let input = files::input::read(&mut rt.stdin(), &mut buffer);
    match input {
        Ok(n) => pack(&mut output, &mut errors, reader::text(&buffer, 0, n)),
        Err(_) => fail(&mut errors, b"pack: standard input could not be read\n"),
    }
}
