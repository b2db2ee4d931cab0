// One record apart from any table and context: how it is laid out, and what stands in it.
#![tactic(auto)]

ghost use Rattle.std.specs.Prelude.{◌≡◌, false, ◌+◌, ◌-◌, ◌*◌, ◌^◌, ◌<◌, ◌≤◌, length};
ghost use Rattle.words.specs.Word.{word_at};
ghost use Rattle.format.specs.Models.Bounds.{PartFits};
ghost use Rattle.records.specs.Layout.{has_extra, extra_words, is_event, event_layout, is_log, log_layout, layout_of, event_of, log_of, own_of, take_fields, last_word, lookup_of, report_read};
ghost use Rattle.records.specs.Models.Layouts.{LayoutFits, take_pair};
ghost use Rattle.records.specs.Record.{provider_info_of, metadata_of, initialization_of, string_of, thread_of, content_of, record_at};
ghost use Rattle.records.specs.Item.{own_layout};

use format::{Format, Part, Reason, Reference};

// What is particular to an event: its type and its timestamp.
#[derive(Clone, Copy)]
pub struct Event {
    pub variant: u8,
    pub timestamp: u64,
}

// What is particular to a log: its timestamp.
#[derive(Clone, Copy)]
pub struct Log {
    pub timestamp: u64,
}

// What is particular to the kind of a record that refers to texts and threads.
#[derive(Clone, Copy)]
pub enum Own {
    Event(Event),
    Log(Log),
}

// A reference with the table that it is looked up in, by the type of its records: 2 for texts, 3 for threads. The type is a number and no
// enum, since `Registrations::resolve` of tables and `passes::recall` answer for any.
#[derive(Clone, Copy)]
pub struct Lookup {
    pub table: u64,
    pub reference: Reference,
}

// A record that refers to texts and threads: what is particular to its kind, up to three references in order, a stream
// that is no reference, where its arguments start, and its last word. An absent reference is the empty inline text, an
// absent stream has no bytes, an absent last word is 0.
#[derive(Clone, Copy)]
pub struct Report {
    pub own: Own,
    pub first: Lookup,
    pub second: Lookup,
    pub third: Lookup,
    pub stream: Reference,
    pub count: usize,
    pub arguments: usize,
    pub last: u64,
}

// Whether a record is read so, and how it is laid out: words, three references and a stream of so many bytes, arguments, and words behind them; its
// reserved bits. `read` stands beside the rest and makes no Option of it, since `layout_of` lays out any header.
#[derive(Clone, Copy)]
pub struct Layout {
    pub read: bool,
    pub words: usize,
    pub first: Part,
    pub second: Part,
    pub third: Part,
    pub stream: usize,
    pub count: usize,
    pub behind: usize,
    pub reserved: u64,
}

// What stands in a record. A string or thread record of index 0 is ignored. A refusal is by its number and not by a `Reason`, since
// `effects::effect_of` and `passes::follow` answer for any number.
#[derive(Clone, Copy)]
pub enum Content {
    Refused(u8),
    Magic,
    ProviderInfo {
        id: u32,
        place: usize,
        length: usize,
    },
    Section {
        id: u32,
    },
    ProviderEvent {
        id: u32,
        event: u8,
    },
    Initialization {
        rate: u64,
    },
    String {
        index: usize,
        place: usize,
        length: usize,
    },
    Thread {
        index: usize,
        place: usize,
    },
    Report(Report),
    Ignored,
    Skipped {
        record_type: u8,
        size: u64,
    },
}

// What a record does to the state and the tables: it stops the reading by a number, changes nothing, makes an id current,
// sets the rate of the current context, or registers a text (table 2) or a thread (table 3) by the place and length of its bytes. The number
// may be any, since `effects::follow` answers for any.
#[derive(Clone, Copy)]
pub enum Effect {
    Stop(u8),
    Pass,
    Enter {
        id: u32,
    },
    SetRate {
        rate: u64,
    },
    Register {
        table: u64,
        index: usize,
        place: usize,
        length: usize,
    },
}

// A record with the place right behind it, or with its own place where it has no extent.
#[derive(Clone, Copy)]
pub struct Record {
    pub content: Content,
    pub next: usize,
}

// The references and the stream of a layout, and where its arguments start.
#[derive(Clone, Copy)]
pub struct Fields {
    pub first: Reference,
    pub second: Reference,
    pub third: Reference,
    pub stream: Reference,
    pub next: usize,
}

// Two parts that were taken, and the place behind them.
#[derive(Clone, Copy)]
pub struct Pair {
    pub first: Reference,
    pub second: Reference,
    pub next: usize,
}

// Whether events of this type have one more word.
pub fn has_extra(variant: u64) -> bool
    ensures { result ≡ has_extra variant }
{
    variant == 1 || 3 < variant
}

// Whether this is the header of an event that is read.
fn is_event(header: u64) -> bool
    ensures { result ≡ is_event header }
{
    words::field(header, 0, 3) == 4 && words::field(header, 16, 19) <= 10
}

// How many words an event of this type has behind its arguments.
fn extra_words(variant: u64) -> usize
    ensures { result ≡ extra_words variant }
{
    if has_extra(variant) {
        return 1;
    }
    0
}

// How an event is laid out, and whether it is one that is read.
fn event_layout(header: u64) -> Layout
    ensures { result ≡ event_layout header }
{
    Layout {
        read: is_event(header),
        words: 1,
        first: Part::Thread(words::field(header, 24, 31)),
        second: Part::Text(words::field(header, 32, 47)),
        third: Part::Text(words::field(header, 48, 63)),
        stream: 0,
        count: words::field(header, 20, 23) as usize,
        behind: extra_words(words::field(header, 16, 19)),
        reserved: 0,
    }
}

// Whether this is the header of a log.
fn is_log(header: u64) -> bool
    ensures { result ≡ is_log header }
{
    words::field(header, 0, 3) == 9
}

// How a log is laid out.
fn log_layout(header: u64) -> Layout
    ensures { result ≡ log_layout header }
{
    Layout {
        read: true,
        words: 1,
        first: Part::Thread(words::field(header, 32, 39)),
        second: Part::Text(0),
        third: Part::Text(0),
        stream: words::field(header, 16, 30) as usize,
        count: 0,
        behind: 0,
        reserved: words::field(header, 31, 31) + words::field(header, 40, 63),
    }
}

// Whether the record of this header refers to texts and threads, and how it is laid out then.
pub fn layout_of(header: u64) -> Layout
    ensures { result ≡ layout_of header }
{
    if is_log(header) {
        return log_layout(header);
    }
    event_layout(header)
}

// What is particular to an event.
fn event_of(f: Format, source: &[u8]) -> Event
    requires { 16 ≤ length source.now }
    ensures { result ≡ event_of f source.now }
{
    Event {
        variant: words::field(words::word(f.order, source, 0), 16, 19) as u8,
        timestamp: words::word(f.order, source, 8),
    }
}

// What is particular to a log.
fn log_of(f: Format, source: &[u8]) -> Log
    requires { 16 ≤ length source.now }
    ensures { result ≡ log_of f source.now }
{
    Log {
        timestamp: words::word(f.order, source, 8),
    }
}

// What is particular to the kind of such a record.
fn own_of(f: Format, source: &[u8]) -> Own
    requires { 8 + 8 * (layout_of (word_at f.order source.now 0)).words ≤ length source.now }
    ensures { result ≡ own_of f source.now }
{
    if is_log(words::word(f.order, source, 0)) {
        return Own::Log(log_of(f, source));
    }
    Own::Event(event_of(f, source))
}

// Two parts, one behind the other, at a place of a record, whose bytes are `source` and start at the place `start`.
fn take_pair(
    f: Format,
    one: Part,
    two: Part,
    place: usize,
    source: &[u8],
    start: usize,
) -> Result<Pair, Reason>
    requires { PartFits one × PartFits two × (place ≤ start + length source.now) × (start + length source.now < 2 ^ 63) }
    ensures { result ≡ take_pair f one two place source.now start }
{
    let first = format::take_part(f, one, place, source, start)?;
    let second = format::take_part(f, two, first.next, source, start)?;
    Ok(Pair {
        first: first.reference,
        second: second.reference,
        next: second.next,
    })
}

// A part and a stream of so many bytes behind it. Apart from `take_pair`, so that each of the two has one caller and is read
// in place, and so that a stream is taken without asking what kind of part it is.
fn take_tail(
    f: Format,
    part: Part,
    long: usize,
    place: usize,
    source: &[u8],
    start: usize,
) -> Result<Pair, Reason>
    requires { PartFits part × (long < 2 ^ 32) × (place ≤ start + length source.now) × (start + length source.now < 2 ^ 63) }
    ensures { result ≡ take_pair f part (Part.Stream long) place source.now start }
{
    let first = format::take_part(f, part, place, source, start)?;
    let second = format::take_stream(f, long, first.next, source, start)?;
    Ok(Pair {
        first: first.reference,
        second: second.reference,
        next: second.next,
    })
}

// The references and the stream of the record that is `source`, whole, at a place of the archive.
pub fn take_fields(f: Format, layout: Layout, source: &[u8], place: usize) -> Result<Fields, Reason>
    requires { LayoutFits layout × (8 ≤ length source.now) × (place + length source.now < 2 ^ 63) }
    ensures { result ≡ take_fields f layout source.now place }
{
    let leading = format::take_words(layout.words, place + 8, source, place)?;
    let pair = take_pair(f, layout.first, layout.second, leading.next, source, place)?;
    let tail = take_tail(f, layout.third, layout.stream, pair.next, source, place)?;
    Ok(Fields {
        first: pair.first,
        second: pair.second,
        third: tail.first,
        stream: tail.second,
        next: tail.next,
    })
}

// The last word of a record whose arguments end at `at`, where it has any behind them, and 0 where it has none.
pub fn last_word(
    f: Format,
    source: &[u8],
    place: usize,
    at: usize,
    behind: usize,
) -> Result<u64, Reason>
    requires { (place ≤ at) × (at ≤ place + length source.now) × (place + length source.now < 2 ^ 63) × (behind ≤ 1) }
    ensures { result ≡ last_word f source.now place at behind }
{
    if place + source.len() < at + 8 * behind {
        return Err(Reason::Malformed);
    }
    if behind == 0 {
        return Ok(0);
    }
    Ok(words::word(f.order, source, at - place))
}

// A reference that was taken for a part, with the table that it is looked up in.
fn lookup_of(part: Part, reference: Reference) -> Lookup
    ensures { result ≡ lookup_of part reference }
{
    Lookup {
        table: format::table_of(part),
        reference,
    }
}

// A record that refers to texts and threads and is laid out so, with its references and stream, where its arguments start, and its last word.
pub fn report_read(
    f: Format,
    layout: Layout,
    source: &[u8],
    first: Reference,
    second: Reference,
    third: Reference,
    stream: Reference,
    arguments: usize,
    last: u64,
) -> Report
    requires { 8 + 8 * (layout_of (word_at f.order source.now 0)).words ≤ length source.now }
    ensures { result ≡ report_read f layout source.now first second third stream arguments last }
{
    let one = layout.first;
    let two = layout.second;
    let three = layout.third;
    Report {
        own: own_of(f, source),
        first: lookup_of(one, first),
        second: lookup_of(two, second),
        third: lookup_of(three, third),
        stream,
        count: layout.count,
        arguments,
        last,
    }
}

// Provider info.
fn provider_info_of(f: Format, source: &[u8], place: usize) -> Content
    requires { (8 ≤ length source.now) × (place + length source.now < 2 ^ 62) }
    ensures { result ≡ provider_info_of f source.now place }
{
    let header = words::word(f.order, source, 0);
    let length = words::field(header, 52, 59) as usize;
    match format::take_stream(f, length, place + 8, source, place) {
        Err(reason) => Content::Refused(reason.number()),
        Ok(_) => Content::ProviderInfo {
            id: words::field(header, 20, 51) as u32,
            place: place + 8,
            length,
        },
    }
}

// A metadata record.
fn metadata_of(f: Format, source: &[u8], place: usize) -> Content
    requires { (8 ≤ length source.now) × (place + length source.now < 2 ^ 62) }
    ensures { result ≡ metadata_of f source.now place }
{
    let header = words::word(f.order, source, 0);
    let metadata_type = words::field(header, 16, 19);
    if metadata_type == 1 {
        return provider_info_of(f, source, place);
    }
    if metadata_type == 2 {
        return Content::Section {
            id: words::field(header, 20, 51) as u32,
        };
    }
    if metadata_type == 3 {
        return Content::ProviderEvent {
            id: words::field(header, 20, 51) as u32,
            event: words::field(header, 52, 55) as u8,
        };
    }
    if words::field(header, 16, 23) == 4 {
        if words::starts_with_magic(source) {
            return Content::Magic;
        }
        return Content::Refused(Reason::Malformed.number());
    }
    Content::Skipped {
        record_type: 0,
        size: format::record_words(header),
    }
}

// An initialization record.
fn initialization_of(f: Format, source: &[u8], place: usize) -> Content
    requires { place + length source.now < 2 ^ 62 }
    ensures { result ≡ initialization_of f source.now place }
{
    let end = place + source.len();
    if end < place + 8 + 8 {
        return Content::Refused(Reason::Malformed.number());
    }
    Content::Initialization {
        rate: words::word(f.order, source, 8),
    }
}

// A string record.
fn string_of(f: Format, source: &[u8], place: usize) -> Content
    requires { (8 ≤ length source.now) × (place + length source.now < 2 ^ 62) }
    ensures { result ≡ string_of f source.now place }
{
    let header = words::word(f.order, source, 0);
    let index = words::field(header, 16, 30) as usize;
    let length = words::field(header, 32, 46) as usize;
    if index == 0 {
        return Content::Ignored;
    }
    if (f.highest as usize) < index {
        return Content::Refused(Reason::HighIndex.number());
    }
    match format::take_stream(f, length, place + 8, source, place) {
        Err(reason) => Content::Refused(reason.number()),
        Ok(_) => Content::String {
            index,
            place: place + 8,
            length,
        },
    }
}

// A thread record.
fn thread_of(f: Format, source: &[u8], place: usize) -> Content
    requires { (8 ≤ length source.now) × (place + length source.now < 2 ^ 62) }
    ensures { result ≡ thread_of f source.now place }
{
    let header = words::word(f.order, source, 0);
    let index = words::field(header, 16, 23) as usize;
    if index == 0 {
        return Content::Ignored;
    }
    match format::take_words(2, place + 8, source, place) {
        Err(reason) => Content::Refused(reason.number()),
        Ok(_) => Content::Thread {
            index,
            place: place + 8,
        },
    }
}

// What stands in the record that is `source`, whole, at a place of the archive, and refers to neither texts nor threads. Those that do are read by
// their callers: a step looks up what they refer to, a repack asks what it would lose, in the same walk over their arguments.
pub fn content_of(f: Format, source: &[u8], place: usize) -> Content
    requires { (8 ≤ length source.now) × (place + length source.now < 2 ^ 62) × ((layout_of (word_at f.order source.now 0)).read ≡ false) }
    ensures { result ≡ content_of f source.now place }
{
    let header = words::word(f.order, source, 0);
    let record_type = words::field(header, 0, 3);
    if record_type == 2 {
        return string_of(f, source, place);
    }
    if record_type == 3 {
        return thread_of(f, source, place);
    }
    if record_type == 0 {
        return metadata_of(f, source, place);
    }
    if record_type == 1 {
        return initialization_of(f, source, place);
    }
    Content::Skipped {
        record_type: record_type as u8,
        size: format::record_words(header),
    }
}

// How many words of its own a record that refers to texts and threads, read at a place, has before its references.
pub fn own_words(f: Format, archive: &[u8], place: usize, report: Report) -> usize
    requires { (record_at f archive.now place).content ≡ Content.Report report }
    ensures { result ≡ length (own_layout report.own).words }
{
    let layout = layout_of(words::word(f.order, archive, place));
    layout.words
}

// How many words it has behind its arguments.
pub fn own_behind(f: Format, archive: &[u8], place: usize, report: Report) -> usize
    requires { (record_at f archive.now place).content ≡ Content.Report report }
    ensures { result ≡ (own_layout report.own).behind }
{
    let layout = layout_of(words::word(f.order, archive, place));
    layout.behind
}
