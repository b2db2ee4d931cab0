// Makes every call of the file probes.bin: steps and arguments with any state and any tables. Each is a header of 176
// bytes, table entries, and an archive of at most 4,096 bytes. What a call shows is written at once. Reading or writing
// that fails, a file that ends inside a call, and a call that wants what is not read yet (a names sheet, the full size,
// marks) are said on standard error and stop the program.
#![tactic(auto)]

ghost use Rattle.std.specs.Prelude.{◌≡◌, ◌<◌, length};

use contexts::State;
use files::input::ReadError;
use lines::Cursor;
use reader::Answer;
use std::fs::File;
use std::io;
use std::io::Read;

// The word of this number, from 0, of a header.
fn word(header: &[u8; 176], n: usize) -> u64
    requires { n < 22 }
{
    words::little_word(header, 8 * n)
}

fn low_half(word: u64) -> u32 {
    words::field(word, 0, 31) as u32
}

fn high_half(word: u64) -> u32 {
    words::field(word, 32, 63) as u32
}

fn state_of(header: &[u8; 176]) -> State {
    State {
        place: word(header, 1) as usize,
        rates: [
            word(header, 2),
            word(header, 3),
            word(header, 4),
            word(header, 5),
            word(header, 6),
            word(header, 7),
            word(header, 8),
            word(header, 9),
            word(header, 10),
        ],
        ids: [
            low_half(word(header, 11)),
            high_half(word(header, 11)),
            low_half(word(header, 12)),
            high_half(word(header, 12)),
            low_half(word(header, 13)),
            high_half(word(header, 13)),
            low_half(word(header, 14)),
            high_half(word(header, 14)),
        ],
        count: word(header, 15) as usize,
        current: word(header, 16) as usize,
    }
}

// Whether a call has no sheet, the small size and no marks.
fn is_read(header: &[u8; 176]) -> bool {
    if word(header, 20) != 0xffff_ffff {
        return false;
    }
    word(header, 21) == 0
}

fn put_numbers<T: Copy + Into<u64>>(out: &mut Cursor, numbers: &[T]) {
    for &number in numbers {
        out.put_number(number.into());
    }
}

fn put_state(out: &mut Cursor, state: State) {
    out.put_bytes(b"s");
    out.put_number(state.place as u64);
    put_numbers(out, &state.rates);
    put_numbers(out, &state.ids);
    out.put_number(state.count as u64);
    out.put_number(state.current as u64);
    out.put_bytes(b"\n");
}

fn put_word(out: &mut Cursor, position: usize, word: u32) {
    out.put_bytes(b"t");
    out.put_number(position as u64);
    out.put_number(u64::from(word));
    out.put_bytes(b"\n");
}

// The table words that changed.
fn put_changes(out: &mut Cursor, before: &[u32], after: &[u32]) {
    for (position, (before, after)) in before.iter().zip(after).enumerate() {
        if before != after {
            put_word(out, position, *after);
        }
    }
}

fn put_answer(out: &mut Cursor, archive: &[u8], answer: Answer) {
    if let Answer::Nothing = answer {
        out.put_bytes(b"-\n");
        return;
    }
    item_lines::put_answer(out, archive, answer);
}

fn put_step(out: &mut Cursor, archive: &[u8], state: State, before: &[u32], tables: &mut [u32]) {
    let reply = reader::step(archive, state, tables);
    put_answer(out, archive, reply.answer);
    put_state(out, reply.state);
    put_changes(out, before, tables);
}

fn put_argument(
    out: &mut Cursor,
    archive: &[u8],
    state: State,
    tables: &[u32],
    place: usize,
    number: usize,
) {
    let asked = reader::argument(archive, state, tables, place, number);
    item_lines::put_asked(out, archive, asked);
}

// Sets one table entry from the file, and answers whether it could be read.
fn read_entry<F: Read>(file: &mut F, tables: &mut [u32]) -> bool {
    let mut bytes = [0u8; 8];
    let outcome = files::input::read_bytes(file, &mut bytes, 8);
    let Ok(()) = outcome else {
        return false;
    };
    let entry = words::little_word(&bytes, 0);
    let position = low_half(entry) as usize;
    if position < tables.len() {
        tables[position] = high_half(entry);
    }
    true
}

// Sets so many table entries, and answers whether they could all be read.
fn read_entries<F: Read>(file: &mut F, tables: &mut [u32], count: u32) -> bool {
    for _ in 0..count {
        if !read_entry(file, tables) {
            return false;
        }
    }
    true
}

// Makes the call of a header that was read.
fn put_call(
    out: &mut Cursor,
    header: &[u8; 176],
    archive: &[u8],
    before: &[u32],
    tables: &mut [u32],
) {
    let state = state_of(header);
    if low_half(word(header, 0)) == 0 {
        put_step(out, archive, state, before, tables);
    } else {
        put_argument(
            out,
            archive,
            state,
            tables,
            word(header, 17) as usize,
            word(header, 18) as usize,
        );
    }
}

// Writes the n bytes that a call shows. What fills the buffer may have been cut.
fn write_call(rt: &impl Print, out: &[u8], n: usize) -> Result<(), &'static str> {
    if out.len() <= n {
        return Err("probes: what a call shows is too long");
    }
    if files::output::write(&mut io::writer(rt), out, n).is_ok() {
        return Ok(());
    }
    Err("probes: standard output could not be written")
}

// Makes the call of a header, whose archive comes next in the file.
fn show_call<F: Read>(
    rt: &impl Print,
    file: &mut F,
    probe: u64,
    header: &[u8; 176],
    before: &[u32],
    tables: &mut [u32],
    out: &mut [u8],
) -> Result<(), &'static str> {
    let length = high_half(word(header, 0)) as usize;
    let mut archive = [0u8; 4096];
    let outcome = files::input::read_bytes(file, &mut archive, length);
    let Ok(()) = outcome else {
        return Err("probes: probes.bin could not be read to the end of a call");
    };
    let mut shown = Cursor::new(out, 0);
    shown.put_bytes(b"probe");
    shown.put_number(probe);
    shown.put_bytes(b"\n");
    put_call(
        &mut shown,
        header,
        reader::text(&archive, 0, length),
        before,
        tables,
    );
    let end = shown.place();
    write_call(rt, out, end)
}

// Makes the call of a header, whose table entries come next in the file.
fn show_probe<F: Read>(
    rt: &impl Print,
    file: &mut F,
    probe: u64,
    header: &[u8; 176],
    out: &mut [u8],
) -> Result<(), &'static str> {
    let room = low_half(word(header, 19)) as usize;
    let mut tables = [0u32; 7000];
    if 7000 < room {
        return Err("probes: a call has tables of more than 7,000 words");
    }
    if read_entries(file, &mut tables, high_half(word(header, 19))) {
        let before = tables;
        return show_call(
            rt,
            file,
            probe,
            header,
            &before[..room],
            &mut tables[..room],
            out,
        );
    }
    Err("probes: probes.bin could not be read to the end of a call")
}

// Makes the next call, and answers whether there was one.
fn next_probe<F: Read>(
    rt: &impl Print,
    file: &mut F,
    probe: u64,
    out: &mut [u8],
) -> Result<bool, &'static str> {
    let mut header = [0u8; 176];
    let outcome = files::input::read_bytes(file, &mut header, 176);
    match outcome {
        Ok(()) => {
            if !is_read(&header) {
                return Err("probes: a call has a sheet, another size or marks");
            }
            show_probe(rt, file, probe, &header, out)?;
            Ok(true)
        }
        Err(ReadError::End) => Ok(false),
        Err(ReadError::Failed) => Err("probes: probes.bin could not be read to the end of a call"),
    }
}

// Nothing says that a file ends, so the calls are counted, up to a number that no file reaches.
fn show_probes<F: Read>(rt: &impl Print, file: &mut F, out: &mut [u8]) -> Result<(), &'static str> {
    for probe in 0..1000000 {
        if !next_probe(rt, file, probe, out)? {
            return Ok(());
        }
    }
    Ok(())
}

// Room for what a call shows: a line for each word of the tables, and a few more.
fn buffer() -> [u8; 262144]
    ensures { 262144 ≡ length result }
{
    [0; 262144]
}

fn main(rt: HostRuntime) {
    match File::open(&rt, "probes.bin") {
        Ok(mut file) => {
            let mut out = buffer();
            if let Err(sentence) = show_probes(&rt, &mut file, &mut out) {
                let _ = rt.eprintln(sentence);
            }
        }
        Err(error) => {
            let _ = files::failure::fail(&mut rt.stderr(), b"probes.bin", &error);
        }
    }
}
