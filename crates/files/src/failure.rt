// Saying why a file could not be opened.
ghost use Rattle.std.specs.Prelude.{◌≤◌, length, is_ok};
ghost use Rattle.files.specs.Output.{Says};

use crate::output::write;
use std::io;
use std::io::{ErrorKind, Write};

// How many bytes of an error's text are the system's own. Behind them std writes the error's number, and then zeros follow.
fn text_length(text: &[u8]) -> usize
    ensures { result ≤ length text.now }
{
    for i in 0..text.len() {
        if text[i] == 0 || text[i..].starts_with(b" (os error ") {
            return i;
        }
    }
    text.len()
}

// Writes a line: what failed, as the caller names it, a colon and the system's text.
pub fn fail<W: Write>(errors: &mut W, what: &[u8], error: &io::Error) -> Result<(), ErrorKind>
    ensures { Says (W.contents errors.old) (W.contents errors.new) (is_ok result) what.now }
{
    let mut text = [0u8; 320];
    let mut room = &mut text[..];
    let _ = write!(room, "{error}");
    write(errors, what, what.len())?;
    write(errors, b": ", 2)?;
    let length = text_length(&text);
    write(errors, &text, length)?;
    write(errors, b"\n", 1)
}
