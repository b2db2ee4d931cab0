// Lists the trace on standard input, as document 01 says. Reading or writing that fails is said on standard error, and
// then nothing else is written.
#![tactic(auto)]

ghost use Rattle.std.specs.Prelude.{◌≡◌, length};

use lines::Cursor;
use std::io::Write;

// Writes a listing of n bytes. One that fills the buffer may have been cut.
fn write_listing<O: Write>(output: &mut O, out: &[u8], n: usize) -> Result<(), &'static str> {
    if out.len() <= n {
        return Err("listing: the listing is too long\n");
    }
    if files::output::write(output, out, n).is_ok() {
        return Ok(());
    }
    Err("listing: standard output could not be written\n")
}

// Room for a listing: for each of 32,768 bytes of archive it has fewer than 66.
fn buffer() -> [u8; 2162688]
    ensures { 2162688 ≡ length result }
{
    [0; 2162688]
}

fn list<O: Write>(output: &mut O, input: &[u8]) -> Result<(), &'static str> {
    let mut out = buffer();
    let mut tables = [0u32; 6912];
    let mut lines = Cursor::new(&mut out, 0);
    listings::list_input(&mut lines, input, &mut tables);
    let n = lines.place();
    write_listing(output, &out, n)
}

fn main(rt: HostRuntime) {
    let mut buffer = [0u8; 32769];
    let mut output = rt.stdout();
    let input = files::input::read(&mut rt.stdin(), &mut buffer);
    let listed = match input {
        Ok(n) => list(&mut output, reader::text(&buffer, 0, n)),
        Err(_) => Err("listing: standard input could not be read\n"),
    };
    if let Err(sentence) = listed {
        let _ = files::output::write(&mut rt.stderr(), sentence.as_bytes(), sentence.len());
    }
}
