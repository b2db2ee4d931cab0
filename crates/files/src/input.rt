// Reading from a reader into a lent buffer. What a read that failed has in common with the end of the input, that no
// byte came, is told apart.
ghost use Rattle.std.specs.Prelude.{◌≡◌};
ghost use Rattle.files.specs.Input.{Reads, ReadsBytes, Takes, TakesBytes};

use std::io::{ErrorKind, Read};

// Why not all of the bytes that were asked for came: the input ended before the first, or anything else.
#[derive(Clone, Copy)]
pub enum ReadError {
    End,
    Failed,
}

// How many bytes came until the buffer was full or the input ended. A read that a signal interrupts is one that failed. Of
// std's error its kind is answered, so that answers can be compared.
pub fn read<R: Read>(reader: &mut R, buffer: &mut [u8]) -> Result<usize, ErrorKind>
    ensures reads { Reads buffer.old result buffer.new }
    ensures takes { Takes (R.remaining reader.old) (R.remaining reader.new) result buffer.new }
{
    let mut n = 0;
    // No `for`: how far a read comes is known only behind it.
    while n < buffer.len() {
        match reader.read(&mut buffer[n..]) {
            Ok(0) => return Ok(n),
            Ok(more) => n += more,
            Err(error) => return Err(error.kind()),
        }
    }
    Ok(n)
}

// Reads n bytes to the start of a buffer.
pub fn read_bytes<R: Read>(reader: &mut R, buffer: &mut [u8], n: usize) -> Result<(), ReadError>
    ensures reads { ReadsBytes buffer.old n result buffer.new }
    ensures takes { TakesBytes (R.remaining reader.old) (R.remaining reader.new) n result buffer.new }
{
    if buffer.len() < n {
        return Err(ReadError::Failed); // the buffer is not touched
    }
    let Ok(came) = read(reader, &mut buffer[..n]) else {
        return Err(ReadError::Failed);
    };
    if came == n {
        return Ok(());
    }
    if came == 0 {
        return Err(ReadError::End);
    }
    Err(ReadError::Failed)
}
