// Writing to a writer.
ghost use Rattle.std.specs.Prelude.{◌≤◌, length, IsOk, is_ok};
ghost use Rattle.files.specs.Output.{Gives};

use std::io::{ErrorKind, Write};

// Writes the first n bytes of a buffer. How much the writer takes it alone decides. A write that fails, also one that a
// signal interrupts, and one that takes nothing end the writing. Of std's error its kind is answered.
pub fn write<W: Write>(writer: &mut W, buffer: &[u8], n: usize) -> Result<(), ErrorKind>
    ensures within { IsOk result → n ≤ length buffer.now }
    ensures gives { Gives (W.contents writer.old) (W.contents writer.new) n (is_ok result) buffer.now }
{
    if buffer.len() < n {
        return Err(ErrorKind::InvalidInput);
    }
    let mut done = 0;
    // No `for`: how much the writer takes is known only behind it.
    while done < n {
        match writer.write(&buffer[done..n]) {
            Ok(0) => return Err(ErrorKind::WriteZero),
            Ok(more) => done += more,
            Err(error) => return Err(error.kind()),
        }
    }
    Ok(())
}
