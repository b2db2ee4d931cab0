// What every record is made of, apart from any table: limits, references, headers, and the parts of a body.
#![tactic(auto)]

ghost use Rattle.std.specs.Prelude.{◌≡◌, ◌+◌, ◌*◌, ◌^◌, ◌<◌, length};
ghost use Rattle.format.specs.Limits.{small_format, number_of, Checks};
ghost use Rattle.format.specs.Header.{record_words, extent_of, archive_number};
ghost use Rattle.format.specs.Part.{take_words, take_stream, take_text, take_thread, take_part, table_of, inline_bytes, padding_zero};
ghost use Rattle.format.specs.Models.Bounds.{PartFits, Inside};

use words::Order;

// The limits of an archive, the longest text in bytes and the highest index of a string record, and the byte order of its
// words. Its fields are small, so that a copy of it is one word.
#[derive(Clone, Copy)]
pub struct Format {
    pub longest: u16,
    pub highest: u16,
    pub order: Order,
}

// What a trace or a record is refused by, in the order of document 01's numbers, which begin with 1.
#[derive(Clone, Copy, PartialEq, Eq)]
pub enum Reason {
    NoTrace,
    LongArchive,
    ShortTables,
    ForeignState,
    Cut,
    Malformed,
    LongText,
    HighIndex,
    NinthProvider,
    Loss,
    Unregistered,
    ManyKeys,
    ShortRoom,
    ShortOutput,
}

impl Reason {
    // Document 01's number.
    pub fn number(self) -> u8
        ensures { result ≡ number_of self }
    {
        match self {
            Reason::NoTrace => 1,
            Reason::LongArchive => 2,
            Reason::ShortTables => 3,
            Reason::ForeignState => 4,
            Reason::Cut => 5,
            Reason::Malformed => 6,
            Reason::LongText => 7,
            Reason::HighIndex => 8,
            Reason::NinthProvider => 9,
            Reason::Loss => 10,
            Reason::Unregistered => 11,
            Reason::ManyKeys => 12,
            Reason::ShortRoom => 13,
            Reason::ShortOutput => 14,
        }
    }

    // A refusal by this, at a place.
    pub fn at(self, place: usize) -> Refused
        ensures { result ≡ record { number = number_of self; place = place } }
    {
        let number = self.number();
        Refused { number, place }
    }
}

// A refusal is answered by its number.
impl From<Reason> for u8 {
    ghost from_gives = { λ reason number. number ≡ number_of reason };

    fn from(reason: Reason) -> u8 {
        reason.number()
    }
}

// A refusal by its number and byte place. The number is no `Reason`, since `check_archive` hands on any `short`, and `blocks::put_asked` answers
// for any number.
#[derive(Clone, Copy)]
pub struct Refused {
    pub number: u8,
    pub place: usize,
}

// The most bytes that an archive may have.
pub const LONGEST_ARCHIVE: usize = 16777216;

// Bytes of the archive, or an entry of a table.
#[derive(Clone, Copy)]
pub enum Reference {
    Inline { place: usize, length: usize },
    Index(usize),
}

// A part of a body: so many words, a stream of so many bytes, what a string reference or a thread reference has inline.
#[derive(Clone, Copy)]
pub enum Part {
    Words(usize),
    Stream(usize),
    Text(u64),
    Thread(u64),
}

// A part of a record with the place right behind it.
#[derive(Clone, Copy)]
pub struct Taken {
    pub reference: Reference,
    pub next: usize,
}

// The small size, the one of the base.
pub fn small_format() -> Format
    ensures { result ≡ small_format }
{
    Format {
        longest: 256,
        highest: 511,
        order: Order::Little,
    }
}

// The size that a record's header gives, in words.
pub fn record_words(header: u64) -> u64
    ensures { result ≡ record_words header }
{
    if words::field(header, 0, 3) == 15 {
        words::field(header, 4, 35)
    } else {
        words::field(header, 4, 15)
    }
}

// How many bytes the record takes at the start of what is left of the archive.
pub fn extent_of(f: Format, rest: &[u8]) -> Result<usize, Reason>
    ensures { result ≡ extent_of f rest.now }
{
    if rest.len() < 8 {
        return Err(Reason::Cut);
    }
    let size = record_words(words::word(f.order, rest, 0)) as usize;
    if size == 0 {
        return Err(Reason::Malformed);
    }
    if rest.len() < 8 * size {
        return Err(Reason::Cut);
    }
    Ok(8 * size)
}

// So many words at a place of a record, whose bytes are `source` and start at the place `start`.
pub fn take_words(n: usize, place: usize, source: &[u8], start: usize) -> Result<Taken, Reason>
    requires { (n < 2 ^ 32) × (place < 2 ^ 63) × (start + length source.now < 2 ^ 63) }
    ensures { result ≡ take_words n place source.now start }
{
    let next = place + 8 * n;
    if start + source.len() < next {
        return Err(Reason::Malformed);
    }
    Ok(Taken {
        reference: Reference::Inline {
            place,
            length: 8 * n,
        },
        next,
    })
}

// A stream of n bytes.
pub fn take_stream(
    f: Format,
    n: usize,
    place: usize,
    source: &[u8],
    start: usize,
) -> Result<Taken, Reason>
    requires { (n < 2 ^ 32) × (place < 2 ^ 63) × (start + length source.now < 2 ^ 63) }
    ensures { result ≡ take_stream f n place source.now start }
{
    if (f.longest as usize) < n {
        return Err(Reason::LongText);
    }
    let next = place + 8 * words::stream_words(n);
    if start + source.len() < next {
        return Err(Reason::Malformed);
    }
    Ok(Taken {
        reference: Reference::Inline { place, length: n },
        next,
    })
}

// A string reference with its inline stream.
pub fn take_text(
    f: Format,
    reference: u64,
    place: usize,
    source: &[u8],
    start: usize,
) -> Result<Taken, Reason>
    requires { (reference < 2 ^ 16) × (place < 2 ^ 63) × (start + length source.now < 2 ^ 63) }
    ensures { result ≡ take_text f reference place source.now start }
{
    if reference == 0 {
        return Ok(Taken {
            reference: Reference::Inline { place, length: 0 },
            next: place,
        });
    }
    if reference < 0x8000 {
        return Ok(Taken {
            reference: Reference::Index(reference as usize),
            next: place,
        });
    }
    take_stream(f, (reference - 0x8000) as usize, place, source, start)
}

// A thread reference with its inline process and thread words.
fn take_thread(reference: u64, place: usize, source: &[u8], start: usize) -> Result<Taken, Reason>
    requires { (reference < 2 ^ 8) × (place < 2 ^ 63) × (start + length source.now < 2 ^ 63) }
    ensures { result ≡ take_thread reference place source.now start }
{
    if reference == 0 {
        return take_words(2, place, source, start);
    }
    Ok(Taken {
        reference: Reference::Index(reference as usize),
        next: place,
    })
}

// A part at a place of a record.
pub fn take_part(
    f: Format,
    part: Part,
    place: usize,
    source: &[u8],
    start: usize,
) -> Result<Taken, Reason>
    requires { PartFits part × (place < 2 ^ 63) × (start + length source.now < 2 ^ 63) }
    ensures { result ≡ take_part f part place source.now start }
{
    match part {
        Part::Words(n) => take_words(n, place, source, start),
        Part::Stream(n) => take_stream(f, n, place, source, start),
        Part::Text(reference) => take_text(f, reference, place, source, start),
        Part::Thread(reference) => take_thread(reference, place, source, start),
    }
}

// The table that a part is looked up in: 3 for a thread, 2 for a text and for what is looked up in none. One arm for each kind, since the
// goals of an arm of several stay open.
pub fn table_of(part: Part) -> u64
    ensures { result ≡ table_of part }
{
    match part {
        Part::Words(_) => 2,
        Part::Stream(_) => 2,
        Part::Text(_) => 2,
        Part::Thread(_) => 3,
    }
}

// The bytes that a reference has inline.
pub fn inline_bytes(reference: Reference) -> usize
    requires { inline_bytes reference < 2 ^ 63 }
    ensures { result ≡ inline_bytes reference }
{
    match reference {
        Reference::Index(_) => 0,
        Reference::Inline { place: _, length } => 8 * words::stream_words(length),
    }
}

// Whether the padding behind a part is zero. The bytes of `source` start at the place `start`.
pub fn padding_zero(source: &[u8], start: usize, reference: Reference) -> bool
    requires { (start + length source.now < 2 ^ 63) × Inside start (start + length source.now) reference }
    ensures { result ≡ padding_zero source.now start reference }
{
    match reference {
        Reference::Index(_) => true,
        Reference::Inline { place, length } => {
            let from = place + length - start;
            let to = from + (8 * words::stream_words(length) - length);
            words::all_zero(&source[from..to])
        }
    }
}

// The number that an archive is refused by, or by `short` where fewer words are lent than wanted, or 0. It is no Result over a Reason, since
// `short` may be any number, 0 too.
pub fn archive_number(archive: &[u8], short: u8, wanted: usize, lent: usize) -> u8
    ensures { result ≡ archive_number archive.now short wanted lent }
{
    if LONGEST_ARCHIVE < archive.len() {
        return 2;
    }
    if words::starts_with_magic(archive) {
        if lent < wanted {
            return short;
        }
        return 0;
    }
    1
}

// Whether an archive is taken; the refusal is at its start.
pub fn check_archive(archive: &[u8], short: u8, wanted: usize, lent: usize) -> Result<(), Refused>
    ensures { Checks (archive_number archive.now short wanted lent) result }
{
    match archive_number(archive, short, wanted, lent) {
        0 => Ok(()),
        number => Err(Refused { number, place: 0 }),
    }
}

// The lowest 16 bits of a header: a type and a size in words.
pub fn header(variant: u64, words: usize) -> u64
    requires { (variant < 2 ^ 4) × (words < 2 ^ 12) }
    ensures { result ≡ variant + words * 2 ^ 4 }
{
    words::with_field(variant, 4, 15, words as u64)
}
