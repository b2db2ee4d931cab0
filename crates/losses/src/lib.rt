// What stands in a record, and whether repacking loses something of it: bits and words that no item has. Both are found in one walk over its
// arguments. A record that is known to lose nothing is read without any.
#![tactic(auto)]

ghost use Rattle.std.specs.Prelude.{◌≡◌, true, false, ◌&&◌, ◌+◌, ◌-◌, ◌*◌, ◌^◌, ◌<◌, ◌≤◌, length, take, drop, eqb, Ok};
ghost use Rattle.words.specs.Word.{pick, word_at};
ghost use Rattle.words.specs.Stream.{stream_words};
ghost use Rattle.format.specs.Part.{padding_zero};
ghost use Rattle.format.specs.Models.Bounds.{Inside};
ghost use Rattle.arguments.specs.Loss.{reserved_bits};
ghost use Rattle.arguments.specs.Models.Reading.{held_bytes, texts_of};
ghost use Rattle.records.specs.Layout.{layout_of, report_of, refused_by};
ghost use Rattle.records.specs.Record.{content_of, record_at};
ghost use Rattle.records.specs.Lookups.{on_report};
ghost use Rattle.records.specs.Loss.{words_keep, stream_keeps, record_keeps};
ghost use Rattle.records.specs.Models.Bounds.{ContentInside};
ghost use Rattle.losses.specs.Models.Checking.{texts_keep, checked_argument, checked_arguments, with_last, fields_keep};

use arguments::Texts;
use format::{Format, Reason, Reference};
use records::{Content, Fields, Layout, Record};

// The size of an argument, and whether it loses nothing. `keeps` is a flag, here and below, and no refusal: the walk goes on behind a
// loss, since what a later argument is refused by comes before it.
#[derive(Clone, Copy)]
pub struct CheckedArgument {
    pub size: usize,
    pub keeps: bool,
}

// Where arguments end, and whether they lose nothing.
#[derive(Clone, Copy)]
pub struct CheckedEnd {
    pub at: usize,
    pub keeps: bool,
}

// What stands in a record, and whether it loses nothing.
#[derive(Clone, Copy)]
pub struct CheckedContent {
    pub content: Content,
    pub keeps: bool,
}

// A record, and whether it loses nothing; one that is refused keeps nothing.
#[derive(Clone, Copy)]
pub struct Checked {
    pub record: Record,
    pub keeps: bool,
}

// The reserved bits of an argument's header, which repacking would lose.
fn reserved_bits(header: u64) -> u64
    ensures { result ≡ reserved_bits header }
{
    let variant = words::field(header, 0, 3);
    if variant == 6 {
        return words::field(header, 48, 63);
    }
    if variant == 9 {
        return words::field(header, 33, 63);
    }
    if variant == 1 {
        return 0;
    }
    if variant == 2 {
        return 0;
    }
    words::field(header, 32, 63)
}

// The bytes of the word that a value of this type has behind its argument's name.
fn held_bytes(variant: u64) -> usize
    ensures { result ≡ held_bytes variant }
{
    if variant == 6 {
        return 0;
    }
    if arguments::holds_word(variant) {
        return 8;
    }
    0
}

// Whether the padding behind two parts is zero.
fn both_padding_zero(source: &[u8], place: usize, first: Reference, second: Reference) -> bool
    requires { (place + length source.now < 2 ^ 63) × Inside place (place + length source.now) first × Inside place (place + length source.now) second }
    ensures { result ≡ (padding_zero source.now place first && padding_zero source.now place second) }
{
    format::padding_zero(source, place, first) && format::padding_zero(source, place, second)
}

// Whether the padding behind the texts of an argument is zero; it has one behind its name where its type is 6.
fn texts_padding_zero(
    rest: &[u8],
    place: usize,
    variant: u64,
    name: Reference,
    value: Reference,
) -> bool
    requires { (place + length rest.now < 2 ^ 63) × Inside place (place + length rest.now) name × (variant ≡ 6 → Inside place (place + length rest.now) value) }
    ensures { result ≡ (padding_zero rest.now place name && pick (eqb variant 6) (padding_zero rest.now place value) true) }
{
    if variant == 6 {
        return both_padding_zero(rest, place, name, value);
    }
    format::padding_zero(rest, place, name)
}

// Whether the argument with these texts, which was read at the start of `rest`, loses nothing. Its value is not made.
fn texts_keep(f: Format, rest: &[u8], place: usize, texts: Texts) -> bool
    requires { (place + length rest.now < 2 ^ 63) × (texts_of f rest.now place ≡ Ok texts) }
    ensures { result ≡ texts_keep f rest.now place texts.name texts.value texts.size }
{
    let header = words::word(f.order, rest, 0);
    let variant = words::field(header, 0, 3);
    if 10 <= variant {
        return false;
    }
    if reserved_bits(header) != 0 {
        return false;
    }
    let inline = format::inline_bytes(texts.name) + format::inline_bytes(texts.value);
    if texts.size != 8 + inline + held_bytes(variant) {
        return false;
    }
    texts_padding_zero(rest, place, variant, texts.name, texts.value)
}

// The size of the argument at the start of what is left of a record, and whether it loses nothing.
fn check_argument(f: Format, rest: &[u8], place: usize) -> Result<CheckedArgument, Reason>
    requires { place + length rest.now < 2 ^ 63 }
    ensures { result ≡ checked_argument f rest.now place }
{
    let texts = arguments::texts_of(f, rest, place)?;
    Ok(CheckedArgument {
        size: texts.size,
        keeps: texts_keep(f, rest, place, texts),
    })
}

// Where so many arguments end, and whether they lose nothing, with `extra` bytes and no more behind them.
fn check_arguments(
    f: Format,
    part: &[u8],
    place: usize,
    count: usize,
    extra: usize,
) -> Result<CheckedEnd, Reason>
    requires { place + length part.now < 2 ^ 63 }
    ensures { result ≡ checked_arguments f count part.now place extra }
{
    let mut rest = part;
    let mut at = place;
    let mut keeps = true;
    for _ in 0..count {
        let checked = check_argument(f, rest, at)?;
        keeps = keeps & checked.keeps;
        rest = &rest[checked.size..];
        at += checked.size;
    }
    Ok(CheckedEnd {
        at,
        keeps: keeps & (rest.len() == extra),
    })
}

// Whether a record of so many words and with these reserved bits loses nothing.
fn words_keep(source: &[u8], size: usize, reserved: u64) -> bool
    requires { size ≤ 2 ^ 60 }
    ensures { result ≡ words_keep source.now size reserved }
{
    source.len() == 8 * size && reserved == 0
}

// Whether a record that is a header and a stream, with these reserved bits, loses nothing.
fn stream_keeps(source: &[u8], place: usize, at: usize, long: usize, reserved: u64) -> bool
    requires { (place + length source.now < 2 ^ 63) × (place ≤ at) × (at + 8 * stream_words long ≤ place + length source.now) }
    ensures { result ≡ stream_keeps source.now place at long reserved }
{
    let stream = Reference::Inline {
        place: at,
        length: long,
    };
    words_keep(source, 1 + words::stream_words(long), reserved)
        && format::padding_zero(source, place, stream)
}

// A record that refers to texts and threads, of which all is read but for this last word.
fn report_with(
    f: Format,
    layout: Layout,
    source: &[u8],
    fields: Fields,
    last: Result<u64, Reason>,
) -> Content
    requires { 8 + 8 * (layout_of (word_at f.order source.now 0)).words ≤ length source.now }
    ensures { result ≡ with_last f layout source.now fields.first fields.second fields.third fields.stream fields.next last }
{
    match last {
        Err(reason) => Content::Refused(reason.number()),
        Ok(word) => Content::Report(records::report_read(
            f,
            layout,
            source,
            fields.first,
            fields.second,
            fields.third,
            fields.stream,
            fields.next,
            word,
        )),
    }
}

// Whether its reserved bits, and the padding of its references and its stream, are zero.
fn fields_keep(source: &[u8], place: usize, reserved: u64, fields: Fields) -> bool
    requires { (place + length source.now < 2 ^ 63) × Inside place (place + length source.now) fields.first × Inside place (place + length source.now) fields.second × Inside place (place + length source.now) fields.third × Inside place (place + length source.now) fields.stream }
    ensures { result ≡ fields_keep source.now place reserved fields.first fields.second fields.third fields.stream }
{
    if reserved != 0 {
        return false;
    }
    both_padding_zero(source, place, fields.first, fields.second)
        && both_padding_zero(source, place, fields.third, fields.stream)
}

// A record that is refused keeps nothing.
fn refused(reason: Reason) -> CheckedContent
    ensures { result ≡ record { content = refused_by reason; keeps = false } }
{
    CheckedContent {
        content: Content::Refused(reason.number()),
        keeps: false,
    }
}

// A record that refers to texts and threads, and whether it loses nothing.
fn checked_report_of(f: Format, source: &[u8], place: usize) -> CheckedContent
    requires { (8 ≤ length source.now) × (place + length source.now < 2 ^ 62) }
    ensures { (result.content ≡ report_of f source.now place) × (result.keeps ≡ record_keeps f source.now place (report_of f source.now place)) }
{
    let layout = records::layout_of(words::word(f.order, source, 0));
    let fields = match records::take_fields(f, layout, source, place) {
        Ok(fields) => fields,
        Err(reason) => return refused(reason),
    };
    let from = fields.next - place;
    let extra = 8 * layout.behind;
    let end = match check_arguments(f, &source[from..], fields.next, layout.count, extra) {
        Ok(end) => end,
        Err(reason) => return refused(reason),
    };
    let last = records::last_word(f, source, place, end.at, layout.behind);
    let kept = fields_keep(source, place, layout.reserved, fields);
    CheckedContent {
        content: report_with(f, layout, source, fields, last),
        keeps: kept & end.keeps,
    }
}

// The same, known to lose nothing. Its arguments are not walked: they end where its last words start.
fn kept_report_of(f: Format, source: &[u8], place: usize) -> Content
    requires { (8 ≤ length source.now) × (place + length source.now < 2 ^ 62) × (record_keeps f source.now place (report_of f source.now place) ≡ true) }
    ensures { result ≡ report_of f source.now place }
{
    let layout = records::layout_of(words::word(f.order, source, 0));
    match records::take_fields(f, layout, source, place) {
        Err(reason) => Content::Refused(reason.number()),
        Ok(fields) => {
            let at = place + source.len() - 8 * layout.behind;
            let last = records::last_word(f, source, place, at, layout.behind);
            report_with(f, layout, source, fields, last)
        }
    }
}

// Whether a record in which this was read, and which refers to nothing, loses nothing.
fn plain_keeps(f: Format, source: &[u8], place: usize, content: Content) -> bool
    requires { (8 ≤ length source.now) × (place + length source.now < 2 ^ 62) × ContentInside place (place + length source.now) content }
    ensures { result ≡ on_report content (record_keeps f source.now place content) (λ q. false) }
{
    let header = words::word(f.order, source, 0);
    match content {
        Content::Refused(_) => false,
        Content::Magic => true,
        Content::ProviderInfo {
            id: _,
            place: at,
            length: long,
        } => stream_keeps(source, place, at, long, words::field(header, 60, 63)),
        Content::Section { id: _ } => words_keep(source, 1, words::field(header, 52, 63)),
        Content::ProviderEvent { id: _, event: _ } => {
            words_keep(source, 1, words::field(header, 56, 63))
        }
        Content::Initialization { rate: _ } => {
            words_keep(source, 2, words::field(header, 16, 63))
        }
        Content::String {
            index: _,
            place: at,
            length: long,
        } => stream_keeps(
            source,
            place,
            at,
            long,
            words::field(header, 31, 31) + words::field(header, 47, 63),
        ),
        Content::Thread { index: _, place: _ } => {
            words_keep(source, 3, words::field(header, 24, 63))
        }
        Content::Report(_) => false,
        Content::Ignored => true,
        Content::Skipped {
            record_type: _,
            size: _,
        } => false,
    }
}

// What stands in the record that is `source`, whole, and whether it loses nothing.
fn checked_content_of(f: Format, source: &[u8], place: usize) -> CheckedContent
    requires { (8 ≤ length source.now) × (place + length source.now < 2 ^ 62) }
    ensures { (result.content ≡ content_of f source.now place) × (result.keeps ≡ record_keeps f source.now place (content_of f source.now place)) }
{
    let layout = records::layout_of(words::word(f.order, source, 0));
    if layout.read {
        return checked_report_of(f, source, place);
    }
    let content = records::content_of(f, source, place);
    let keeps = plain_keeps(f, source, place, content);
    CheckedContent { content, keeps }
}

// The record at a place of the archive, and whether it loses nothing.
pub fn checked_record_at(f: Format, archive: &[u8], place: usize) -> Checked
    requires { (length archive.now < 2 ^ 62) × (place ≤ length archive.now) }
    ensures record_value { result.record ≡ record_at f archive.now place }
    ensures keeps_value { result.keeps ≡ record_keeps f (take ((record_at f archive.now place).next - place) (drop place archive.now)) place (record_at f archive.now place).content }
{
    let rest = &archive[place..];
    match format::extent_of(f, rest) {
        Err(reason) => Checked {
            record: Record {
                content: Content::Refused(reason.number()),
                next: place,
            },
            keeps: false,
        },
        Ok(size) => {
            let checked = checked_content_of(f, &rest[..size], place);
            Checked {
                record: Record {
                    content: checked.content,
                    next: place + size,
                },
                keeps: checked.keeps,
            }
        }
    }
}

// What stands in the record that is `source`, whole, where it loses nothing.
fn kept_content_of(f: Format, source: &[u8], place: usize) -> Content
    requires { (8 ≤ length source.now) × (place + length source.now < 2 ^ 62) × (record_keeps f source.now place (content_of f source.now place) ≡ true) }
    ensures { result ≡ content_of f source.now place }
{
    let layout = records::layout_of(words::word(f.order, source, 0));
    if layout.read {
        return kept_report_of(f, source, place);
    }
    records::content_of(f, source, place)
}

// The record at a place of the archive, where it loses nothing.
pub fn kept_record_at(f: Format, archive: &[u8], place: usize) -> Record
    requires { (length archive.now < 2 ^ 62) × (place ≤ length archive.now) × (record_keeps f (take ((record_at f archive.now place).next - place) (drop place archive.now)) place (record_at f archive.now place).content ≡ true) }
    ensures { result ≡ record_at f archive.now place }
{
    let rest = &archive[place..];
    match format::extent_of(f, rest) {
        Err(reason) => Record {
            content: Content::Refused(reason.number()),
            next: place,
        },
        Ok(size) => Record {
            content: kept_content_of(f, &rest[..size], place),
            next: place + size,
        },
    }
}
