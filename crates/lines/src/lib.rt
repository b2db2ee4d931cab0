// Numbers, texts and references, put into a lent buffer as a line shows them, each behind what was put before. What does not
// fit is left out. Nothing here asks anything of its caller.
#![tactic(auto)]

ghost use Rattle.std.specs.Prelude.{◌≡◌, ◌++◌};
ghost use Rattle.io.specs.Digits.{last_digits};
ghost use Rattle.lines.specs.Put.{Puts, Adds};
ghost use Rattle.lines.specs.Shown.{decimal, number_shown, signed_shown, boolean_shown, double_shown, unresolved_shown, bytes_shown, text_shown, thread_shown, referent_shown, provider_shown, scalar_shown, value_shown, value_type, hex_shown};

use arguments::Scalar;
use views::{ShownReferent, ShownText, ShownThread, ShownValue};

// A lent buffer, and the place in it from which on bytes are put.
#[derive(Drop)]
pub struct Cursor<'a> {
    buffer: &'a mut [u8],
    place: usize,
}

// Copies as many of these bytes as the buffer holds from a place on, and answers the place behind them.
fn copy(buffer: &mut [u8], place: usize, bytes: &[u8]) -> usize
    ensures { Puts buffer.old place bytes.now result buffer.new }
{
    if buffer.len() <= place {
        return place;
    }
    let n = bytes.len().min(buffer.len() - place);
    buffer[place..place + n].copy_from_slice(&bytes[..n]);
    place + n
}

impl<'a> Cursor<'a> {
    // A buffer, into which bytes are put from a place on.
    pub fn new(buffer: &'a mut [u8], place: usize) -> Cursor<'a>
        ensures same_buffer { result.buffer.ghost_name ≡ buffer.entry.ghost_name }
        ensures value { result.buffer.now ≡ buffer.old }
        ensures place { result.place ≡ place }
    {
        Cursor { buffer, place }
    }

    // The place behind what was put.
    pub fn place(&self) -> usize
        ensures { result ≡ self.now.place }
    {
        self.place
    }

    pub fn put_bytes(&mut self, bytes: &[u8])
        ensures { Adds self.old bytes.now self.new }
    {
        self.place = copy(self.buffer, self.place, bytes);
    }

    fn put_decimal(&mut self, n: u64)
        ensures { Adds self.old (decimal n) self.new }
    {
        let mut text = [0u8; 20];
        let k = io::decimal(n, &mut text);
        self.put_bytes(&text[..k]);
    }

    // A number behind a space.
    pub fn put_number(&mut self, n: u64)
        ensures { Adds self.old (number_shown n) self.new }
    {
        self.put_bytes(b" ");
        self.put_decimal(n);
    }

    fn put_signed(&mut self, n: i64)
        ensures { Adds self.old (signed_shown n) self.new }
    {
        if n < 0 {
            self.put_bytes(b" -");
        } else {
            self.put_bytes(b" ");
        }
        self.put_decimal(n.unsigned_abs());
    }

    fn put_boolean(&mut self, value: bool)
        ensures { Adds self.old (boolean_shown value) self.new }
    {
        if value {
            self.put_bytes(b" 1");
        } else {
            self.put_bytes(b" 0");
        }
    }

    // A double by the 16 digits of its bits.
    fn put_double(&mut self, bits: u64)
        ensures { Adds self.old (double_shown bits) self.new }
    {
        let mut text = [0u8; 16];
        let k = io::hex(bits, 16, &mut text);
        self.put_bytes(b" ");
        self.put_bytes(&text[..k]);
    }

    fn put_unresolved(&mut self, index: usize)
        ensures { Adds self.old (unresolved_shown index) self.new }
    {
        self.put_bytes(b" ?");
        self.put_decimal(index as u64);
    }

    // A text by its length and its bytes.
    pub fn put_text_bytes(&mut self, bytes: &[u8])
        ensures { Adds self.old (bytes_shown bytes.now) self.new }
    {
        self.put_number(bytes.len() as u64);
        self.put_bytes(b":");
        self.put_bytes(bytes);
    }

    pub fn put_text(&mut self, archive: &[u8], text: ShownText)
        ensures { Adds self.old (text_shown archive.now text) self.new }
    {
        match text {
            ShownText::At { place, length } => {
                self.put_text_bytes(words::part(archive, place, length))
            }
            ShownText::Unresolved { index } => self.put_unresolved(index),
        }
    }

    fn put_words(&mut self, process: u64, thread: u64)
        ensures { Adds self.old (number_shown process ++ number_shown thread) self.new }
    {
        self.put_number(process);
        self.put_number(thread);
    }

    fn put_thread(&mut self, thread: ShownThread)
        ensures { Adds self.old (thread_shown thread) self.new }
    {
        match thread {
            ShownThread::Words { process, thread } => self.put_words(process, thread),
            ShownThread::Unresolved { index } => self.put_unresolved(index),
        }
    }

    // What a record refers to: a text or a thread.
    pub fn put_referent(&mut self, archive: &[u8], referent: ShownReferent)
        ensures { Adds self.old (referent_shown archive.now referent) self.new }
    {
        match referent {
            ShownReferent::Text(text) => self.put_text(archive, text),
            ShownReferent::Thread(thread) => self.put_thread(thread),
        }
    }

    pub fn put_provider(&mut self, provider: Option<u32>)
        ensures { Adds self.old (provider_shown provider) self.new }
    {
        match provider {
            None => self.put_bytes(b" -"),
            Some(id) => self.put_number(u64::from(id)),
        }
    }

    fn put_scalar(&mut self, scalar: Scalar)
        ensures { Adds self.old (scalar_shown scalar) self.new }
    {
        match scalar {
            Scalar::Null => self.put_bytes(b" -"),
            Scalar::Signed32(n) => self.put_signed(i64::from(n)),
            Scalar::Unsigned32(n) => self.put_number(u64::from(n)),
            Scalar::Signed64(n) => self.put_signed(n),
            Scalar::Unsigned64(n) => self.put_number(n),
            Scalar::Double(bits) => self.put_double(bits),
            Scalar::Pointer(word) => self.put_number(word),
            Scalar::KernelObject(word) => self.put_number(word),
            Scalar::Boolean(value) => self.put_boolean(value),
            Scalar::Unknown(_) => self.put_bytes(b" ?"),
        }
    }

    pub fn put_value(&mut self, archive: &[u8], value: ShownValue)
        ensures { Adds self.old (value_shown archive.now value) self.new }
    {
        match value {
            ShownValue::Scalar(scalar) => self.put_scalar(scalar),
            ShownValue::Text(text) => self.put_text(archive, text),
        }
    }

    // A byte by two lower-case hexadecimal digits.
    fn put_hex_byte(&mut self, byte: u8)
        ensures { Adds self.old (last_digits 16 2 byte) self.new }
    {
        let mut text = [0u8; 16];
        let k = io::hex(u64::from(byte), 2, &mut text);
        self.put_bytes(&text[..k]);
    }

    // Bytes by two lower-case hexadecimal digits each.
    pub fn put_hex(&mut self, bytes: &[u8])
        ensures { Adds self.old (hex_shown bytes.now) self.new }
    {
        for &byte in bytes {
            self.put_hex_byte(byte);
        }
    }
}

// The argument type of a value.
pub fn value_type(value: ShownValue) -> u64
    ensures { result ≡ value_type value }
{
    match value {
        ShownValue::Scalar(scalar) => scalar.argument_type(),
        ShownValue::Text(_) => 6,
    }
}
