// Repacks every archive of the file rooms.bin with rooms and outputs that are too short, exactly long enough and longer.
// Both are filled before each call, and a line says the reply and what stands in them after it. In the file each archive
// stands behind its 32-bit length, at most 256. What an archive shows is written at once. Reading or writing that fails,
// and a file that ends inside an archive, are said on standard error and stop the program.
#![tactic(auto)]

use files::input::ReadError;
use format::Refused;
use lines::Cursor;
use std::fs::File;
use std::io;
use std::io::Read;

// What a room and an output are filled with before a call, by its position. None is 0.
trait Filling: Copy + PartialEq {
    fn before(position: usize) -> Self;
}

impl Filling for u32 {
    fn before(position: usize) -> u32 {
        (1 + position % 65521) as u32
    }
}

impl Filling for u8 {
    fn before(position: usize) -> u8 {
        (1 + position % 251) as u8
    }
}

fn fill<T: Filling>(items: &mut [T]) {
    for i in 0..items.len() {
        items[i] = T::before(i);
    }
}

// Whether what stands from a position on is as it was.
fn is_kept<T: Filling>(items: &[T], from: usize) -> bool {
    for i in from..items.len() {
        if items[i] != T::before(i) {
            return false;
        }
    }
    true
}

// Whether the words up to a position are zero.
fn is_zero(words: &[u32], to: usize) -> bool {
    if words.len() < to {
        return false;
    }
    words[..to].iter().all(|&word| word == 0)
}

// An archive, and what is expected to be written for it.
#[derive(Clone, Copy)]
struct Case<'a> {
    archive: &'a [u8],
    expected: &'a [u8],
}

fn put_room(out: &mut Cursor, room: &[u32]) {
    if is_kept(room, 0) {
        out.put_bytes(b", room as it was");
    } else if is_zero(room, 27648) && is_kept(room, 27648) {
        out.put_bytes(b", room zero and as it was behind");
    } else {
        out.put_bytes(b", ROOM WRONG");
    }
}

fn put_output(out: &mut Cursor, output: &[u8], expected: &[u8]) {
    if is_kept(output, 0) {
        out.put_bytes(b", output as it was");
    } else if words::same_bytes(reader::text(output, 0, expected.len()), expected)
        && is_kept(output, expected.len())
    {
        out.put_bytes(b", output written and as it was behind");
    } else {
        out.put_bytes(b", OUTPUT WRONG");
    }
}

fn put_two(out: &mut Cursor, first: u64, second: u64) {
    out.put_number(first);
    out.put_number(second);
}

fn put_reply(out: &mut Cursor, packed: Result<usize, Refused>) {
    match packed {
        Err(refused) => put_two(out, u64::from(refused.number), refused.place as u64),
        Ok(length) => put_two(out, 0, length as u64),
    }
}

fn put_lengths(out: &mut Cursor, room: usize, output: usize) {
    out.put_bytes(b"room");
    out.put_number(room as u64);
    out.put_bytes(b" output");
    out.put_number(output as u64);
    out.put_bytes(b":");
}

// One call, with a room and an output that are filled, and its line.
fn try_call(out: &mut Cursor, case: Case, room: &mut [u32], output: &mut [u8]) {
    fill(room);
    fill(output);
    put_lengths(out, room.len(), output.len());
    let packed = packer::repack(case.archive, room, output);
    put_reply(out, packed);
    put_room(out, room);
    put_output(out, output, case.expected);
    out.put_bytes(b"\n");
}

// The call with an output of n bytes.
fn try_output(out: &mut Cursor, case: Case, room: &mut [u32], n: usize) {
    let mut output = [0u8; 260];
    if n <= 260 {
        try_call(out, case, room, &mut output[..n]);
    }
}

// The calls with an output one byte too short, exactly long enough, and longer.
fn try_outputs(out: &mut Cursor, case: Case, room: &mut [u32]) {
    let n = case.expected.len();
    if n <= 256 {
        try_output(out, case, room, n.saturating_sub(1));
        try_output(out, case, room, n);
        try_output(out, case, room, n + 3);
    }
}

// The calls with a room of n words.
fn try_room(out: &mut Cursor, case: Case, n: usize) {
    let mut room = [0u32; 27650];
    if n <= 27650 {
        try_outputs(out, case, &mut room[..n]);
    }
}

// The calls with a room one word too short, exactly long enough, and longer.
fn try_rooms(out: &mut Cursor, archive: &[u8], expected: &[u8]) {
    let case = Case { archive, expected };
    try_room(out, case, 27647);
    try_room(out, case, 27648);
    try_room(out, case, 27650);
}

// What is written for an archive, and the calls.
fn try_written(out: &mut Cursor, archive: &[u8], written: &[u8]) {
    out.put_hex(written);
    out.put_bytes(b"\n");
    try_rooms(out, archive, written);
}

// An archive, what is written for it, and the calls. Where it is refused, they are made as if it were written as it is.
fn put_archive(out: &mut Cursor, archive: &[u8]) {
    let mut room = [0u32; 27648];
    let mut output = [0u8; 256];
    let packed = packer::repack(archive, &mut room, &mut output);
    out.put_bytes(b"archive");
    out.put_number(archive.len() as u64);
    out.put_bytes(b":");
    put_reply(out, packed);
    out.put_bytes(b"\n");
    match packed {
        Err(_) => try_rooms(out, archive, archive),
        Ok(length) => try_written(out, archive, reader::text(&output, 0, length)),
    }
}

// Writes the n bytes that an archive shows. What fills the buffer may have been cut.
fn write_archive(rt: &impl Print, out: &[u8], n: usize) -> Result<(), &'static str> {
    if out.len() <= n {
        return Err("rooms: what an archive shows is too long");
    }
    if files::output::write(&mut io::writer(rt), out, n).is_ok() {
        return Ok(());
    }
    Err("rooms: standard output could not be written")
}

// Shows the next archive, of n bytes.
fn show_archive<F: Read>(rt: &impl Print, file: &mut F, n: usize) -> Result<(), &'static str> {
    let mut archive = [0u8; 256];
    let mut out = [0u8; 8192];
    let outcome = files::input::read_bytes(file, &mut archive, n);
    let Ok(()) = outcome else {
        return Err("rooms: rooms.bin could not be read to the end of an archive");
    };
    let mut shown = Cursor::new(&mut out, 0);
    put_archive(&mut shown, reader::text(&archive, 0, n));
    let end = shown.place();
    write_archive(rt, &out, end)
}

// Shows the next archive, and answers whether there was one.
fn next_archive<F: Read>(rt: &impl Print, file: &mut F) -> Result<bool, &'static str> {
    let mut header = [0u8; 8];
    let outcome = files::input::read_bytes(file, &mut header, 4);
    match outcome {
        Ok(()) => {
            show_archive(rt, file, words::little_word(&header, 0) as usize)?;
            Ok(true)
        }
        Err(ReadError::End) => Ok(false),
        Err(ReadError::Failed) => Err(
            "rooms: rooms.bin could not be read to the end of an archive",
        ),
    }
}

// Nothing says that a file ends, so the archives are counted, up to a number that no file reaches.
fn show_archives<F: Read>(rt: &impl Print, file: &mut F) -> Result<(), &'static str> {
    for _ in 0..1000000u64 {
        if !next_archive(rt, file)? {
            return Ok(());
        }
    }
    Ok(())
}

fn main(rt: HostRuntime) {
    match File::open(&rt, "rooms.bin") {
        Ok(mut file) => {
            if let Err(sentence) = show_archives(&rt, &mut file) {
                let _ = rt.eprintln(sentence);
            }
        }
        Err(error) => {
            let _ = files::failure::fail(&mut rt.stderr(), b"rooms.bin", &error);
        }
    }
}
