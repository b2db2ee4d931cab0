// Lists and repacks every case of the file corpus.bin: cases one after another, each a header of 16 bytes, which begins with
// the archive's length, and an archive of at most 32,768 bytes. What a case shows is written at once. Reading or writing
// that fails, a file that ends inside a case, and a case that wants what is not read yet (a names sheet, the full size) are
// said on standard error and stop the program.
#![tactic(auto)]

ghost use Rattle.std.specs.Prelude.{◌≡◌, length};

use files::input::ReadError;
use lines::Cursor;
use std::fs::File;
use std::io;
use std::io::Read;

// The length of a case's archive, none at the file's end, that the case has a sheet or another size, or that its header could
// not be read.
#[derive(Clone, Copy)]
enum Length {
    Bytes(usize),
    None,
    Other,
    Failed,
}

// The length in a header whose two words are these. A case without a sheet has all bits of its sheet's length set.
fn length_of(first: u64, second: u64) -> Length {
    if words::field(first, 32, 63) != 0xffff_ffff {
        return Length::Other;
    }
    if second != 0 {
        return Length::Other;
    }
    Length::Bytes(words::field(first, 0, 31) as usize)
}

fn read_length<F: Read>(file: &mut F) -> Length {
    let mut header = [0u8; 16];
    let outcome = files::input::read_bytes(file, &mut header, 16);
    match outcome {
        Ok(()) => length_of(
            words::little_word(&header, 0),
            words::little_word(&header, 8),
        ),
        Err(ReadError::End) => Length::None,
        Err(ReadError::Failed) => Length::Failed,
    }
}

fn put_refusal(out: &mut Cursor, number: u8, place: usize) {
    out.put_bytes(b"pack");
    out.put_number(u64::from(number));
    out.put_number(place as u64);
    out.put_bytes(b"\n");
}

// The written bytes are shown in hexadecimal digits.
fn put_packed(out: &mut Cursor, written: &[u8]) {
    out.put_bytes(b"pack 0");
    out.put_number(written.len() as u64);
    out.put_bytes(b"\n");
    out.put_hex(written);
    out.put_bytes(b"\n");
}

// Repacks a case.
fn put_pack(out: &mut Cursor, archive: &[u8], room: &mut [u32]) {
    let mut output = [0u8; 32768];
    let packed = packer::repack(archive, room, &mut output);
    match packed {
        Err(refused) => put_refusal(out, refused.number, refused.place),
        Ok(length) => put_packed(out, reader::text(&output, 0, length)),
    }
}

fn put_case(out: &mut Cursor, case: u64, archive: &[u8], room: &mut [u32]) {
    out.put_bytes(b"case");
    out.put_number(case);
    out.put_number(archive.len() as u64);
    out.put_bytes(b"\n");
    listings::list(out, archive, room);
    put_pack(out, archive, room);
}

// Writes the n bytes of a case. What fills the buffer may have been cut.
fn write_case(rt: &impl Print, out: &[u8], n: usize) -> Result<(), &'static str> {
    if out.len() <= n {
        return Err("corpus: what a case shows is too long");
    }
    if files::output::write(&mut io::writer(rt), out, n).is_ok() {
        return Ok(());
    }
    Err("corpus: standard output could not be written")
}

// Shows the next case, whose archive has n bytes.
fn show_case<F: Read>(
    rt: &impl Print,
    file: &mut F,
    case: u64,
    n: usize,
    room: &mut [u32],
    out: &mut [u8],
) -> Result<(), &'static str> {
    let mut archive = [0u8; 32768];
    let outcome = files::input::read_bytes(file, &mut archive, n);
    match outcome {
        Ok(()) => {
            let mut shown = Cursor::new(out, 0);
            put_case(&mut shown, case, reader::text(&archive, 0, n), room);
            let end = shown.place();
            write_case(rt, out, end)
        }
        Err(ReadError::End) => Err("corpus: corpus.bin ends inside a case"),
        Err(ReadError::Failed) => Err("corpus: corpus.bin could not be read to the end of a case"),
    }
}

// Shows the next case, and answers whether there was one.
fn next_case<F: Read>(
    rt: &impl Print,
    file: &mut F,
    case: u64,
    room: &mut [u32],
    out: &mut [u8],
) -> Result<bool, &'static str> {
    let length = read_length(file);
    match length {
        Length::Bytes(n) => {
            show_case(rt, file, case, n, room, out)?;
            Ok(true)
        }
        Length::None => Ok(false),
        Length::Other => Err("corpus: a case has a sheet or another size"),
        Length::Failed => Err("corpus: corpus.bin could not be read to the end of a case"),
    }
}

// Nothing says that a file ends, so the cases are counted, up to a number that no file reaches.
fn show_cases<F: Read>(
    rt: &impl Print,
    file: &mut F,
    room: &mut [u32],
    out: &mut [u8],
) -> Result<(), &'static str> {
    for case in 0..1000000 {
        if !next_case(rt, file, case, room, out)? {
            return Ok(());
        }
    }
    Ok(())
}

// Room for what a case shows: a listing, of fewer than 66 bytes for each byte of its archive, two digits for each byte that
// is written, and the lines around them.
fn buffer() -> [u8; 2228480]
    ensures { 2228480 ≡ length result }
{
    [0; 2228480]
}

fn main(rt: HostRuntime) {
    match File::open(&rt, "corpus.bin") {
        Ok(mut file) => {
            let mut room = [0u32; 27648];
            let mut out = buffer();
            if let Err(sentence) = show_cases(&rt, &mut file, &mut room, &mut out) {
                let _ = rt.eprintln(sentence);
            }
        }
        Err(error) => {
            let _ = files::failure::fail(&mut rt.stderr(), b"corpus.bin", &error);
        }
    }
}
