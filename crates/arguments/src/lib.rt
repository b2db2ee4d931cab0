// The arguments of an event, apart from any table. An argument is taken from the part of the event that starts at it.
#![tactic(auto)]

ghost use Rattle.std.specs.Prelude.{◌≡◌, ◌+◌, ◌-◌, ◌*◌, ◌^◌, ◌<◌, ◌≤◌, length};
ghost use Rattle.arguments.specs.Argument.{scalar_type, header_scalar, word_scalar, holds_word, argument_of};
ghost use Rattle.arguments.specs.Models.Reading.{take_value, value_text, texts_of, sought_of};

use format::{Format, Reason, Reference};

// A value that is no text. A double is its 64 bits.
#[derive(Clone, Copy)]
pub enum Scalar {
    Null,
    Signed32(i32),
    Unsigned32(u32),
    Signed64(i64),
    Unsigned64(u64),
    Double(u64),
    Pointer(u64),
    KernelObject(u64),
    Boolean(bool),
    Unknown(u8),
}

impl Scalar {
    // The argument type of a value that is no text.
    pub fn argument_type(self) -> u64
        ensures { result ≡ scalar_type self }
    {
        match self {
            Scalar::Null => 0,
            Scalar::Signed32(_) => 1,
            Scalar::Unsigned32(_) => 2,
            Scalar::Signed64(_) => 3,
            Scalar::Unsigned64(_) => 4,
            Scalar::Double(_) => 5,
            Scalar::Pointer(_) => 7,
            Scalar::KernelObject(_) => 8,
            Scalar::Boolean(_) => 9,
            Scalar::Unknown(variant) => u64::from(variant),
        }
    }
}

#[derive(Clone, Copy)]
pub enum Value {
    Scalar(Scalar),
    Text(Reference),
}

#[derive(Clone, Copy)]
pub struct Argument {
    pub name: Reference,
    pub value: Value,
}

// An argument with its size in bytes.
#[derive(Clone, Copy)]
pub struct Argued {
    pub argument: Argument,
    pub size: usize,
}

// The texts of an argument, its name and that of its value, with its size in bytes.
#[derive(Clone, Copy)]
pub struct Texts {
    pub name: Reference,
    pub value: Reference,
    pub size: usize,
}

// Where an event's arguments end, and where one of them starts.
#[derive(Clone, Copy)]
pub struct Sought {
    pub at: usize,
    pub start: usize,
}

// The value that an argument's header holds itself, or that the type is unknown.
fn header_scalar(header: u64) -> Scalar
    ensures { result ≡ header_scalar header }
{
    let variant = words::field(header, 0, 3);
    if variant == 0 {
        return Scalar::Null;
    }
    if variant == 1 {
        return Scalar::Signed32(words::signed_half(header));
    }
    if variant == 2 {
        return Scalar::Unsigned32(words::field(header, 32, 63) as u32);
    }
    if variant == 9 {
        return Scalar::Boolean(words::field(header, 32, 32) == 1);
    }
    Scalar::Unknown(variant as u8)
}

// Whether an argument of this type has its value in a word.
pub fn holds_word(variant: u64) -> bool
    ensures { result ≡ holds_word variant }
{
    3 <= variant && variant < 9
}

// The value of a type that has it in a word.
fn word_scalar(variant: u64, word: u64) -> Scalar
    ensures { result ≡ word_scalar variant word }
{
    if variant == 3 {
        return Scalar::Signed64(words::signed_word(word));
    }
    if variant == 4 {
        return Scalar::Unsigned64(word);
    }
    if variant == 5 {
        return Scalar::Double(word);
    }
    if variant == 7 {
        return Scalar::Pointer(word);
    }
    Scalar::KernelObject(word)
}

// The value of an argument with this header, whose name ends at the place `at`. Its bytes start at `place`.
fn take_value(
    f: Format,
    header: u64,
    at: usize,
    argument: &[u8],
    place: usize,
) -> Result<Value, Reason>
    requires { (place ≤ at) × (at ≤ place + length argument.now) × (place + length argument.now < 2 ^ 63) }
    ensures { result ≡ take_value f header at argument.now place }
{
    let variant = words::field(header, 0, 3);
    if variant == 6 {
        let text = format::take_text(f, words::field(header, 32, 47), at, argument, place)?;
        return Ok(Value::Text(text.reference));
    }
    if holds_word(variant) {
        if place + argument.len() < at + 8 {
            return Err(Reason::Malformed);
        }
        let word = words::word(f.order, argument, at - place);
        return Ok(Value::Scalar(word_scalar(variant, word)));
    }
    Ok(Value::Scalar(header_scalar(header)))
}

// The argument at the start of what is left of an event, which stands at `place`.
pub fn argument_of(f: Format, rest: &[u8], place: usize) -> Result<Argued, Reason>
    requires { place + length rest.now < 2 ^ 63 }
    ensures { result ≡ argument_of f rest.now place }
{
    if rest.len() < 8 {
        return Err(Reason::Malformed);
    }
    let header = words::word(f.order, rest, 0);
    let size = 8 * words::field(header, 4, 15) as usize;
    if size == 0 {
        return Err(Reason::Malformed);
    }
    if rest.len() < size {
        return Err(Reason::Malformed);
    }
    let argument = &rest[..size];
    let name = format::take_text(f, words::field(header, 16, 31), place + 8, argument, place)?;
    let value = take_value(f, header, name.next, argument, place)?;
    Ok(Argued {
        argument: Argument {
            name: name.reference,
            value,
        },
        size,
    })
}

// The text of the value of an argument with this header, whose name ends at the place `at`, or an inline reference of no
// bytes where it has none. No scalar is made.
fn value_text(
    f: Format,
    header: u64,
    at: usize,
    argument: &[u8],
    place: usize,
) -> Result<Reference, Reason>
    requires { (at ≤ place + length argument.now) × (place + length argument.now < 2 ^ 63) }
    ensures { result ≡ value_text f header at argument.now place }
{
    let variant = words::field(header, 0, 3);
    if variant == 6 {
        let text = format::take_text(f, words::field(header, 32, 47), at, argument, place)?;
        return Ok(text.reference);
    }
    if holds_word(variant) {
        if place + argument.len() < at + 8 {
            return Err(Reason::Malformed);
        }
    }
    Ok(Reference::Inline {
        place: 0,
        length: 0,
    })
}

// The texts and the size of the argument at the start of what is left of an event, which stands at `place`.
pub fn texts_of(f: Format, rest: &[u8], place: usize) -> Result<Texts, Reason>
    requires { place + length rest.now < 2 ^ 63 }
    ensures { result ≡ texts_of f rest.now place }
{
    let room = rest.len();
    if room < 8 {
        return Err(Reason::Malformed);
    }
    let header = words::word(f.order, rest, 0);
    let size = 8 * words::field(header, 4, 15) as usize;
    if size == 0 {
        return Err(Reason::Malformed);
    }
    if room < size {
        return Err(Reason::Malformed);
    }
    let argument = &rest[..size];
    let name = format::take_text(f, words::field(header, 16, 31), place + 8, argument, place)?;
    let value = value_text(f, header, name.next, argument, place)?;
    Ok(Texts {
        name: name.reference,
        value,
        size,
    })
}

// Where so many arguments end, and where the one of this number, from 0, starts. Each is taken from the part that starts at it.
pub fn seek(
    f: Format,
    part: &[u8],
    place: usize,
    count: usize,
    number: usize,
) -> Result<Sought, Reason>
    requires { (place + length part.now < 2 ^ 63) × (number < count) }
    ensures { result ≡ sought_of f count number part.now place }
{
    let mut rest = part;
    let mut at = place;
    let mut start = place;
    for here in 0..count {
        let texts = texts_of(f, rest, at)?;
        if here == number {
            start = at;
        }
        rest = &rest[texts.size..];
        at += texts.size;
    }
    Ok(Sought { at, start })
}
