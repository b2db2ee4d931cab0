// A record as it is shown: what it refers to looked up, its arguments walked over once, and the argument of a number found in it.
// Functions here serve `reader`; they ask for bounds, which it proves.
#![tactic(auto)]

ghost use Rattle.std.specs.Prelude.{◌≡◌, ◌+◌, ◌-◌, ◌^◌, ◌<◌, ◌≤◌, true, length};
ghost use Rattle.words.specs.Word.{word_at};
ghost use Rattle.arguments.specs.Argument.{arguments_of};
ghost use Rattle.records.specs.Layout.{layout_of, report_of};
ghost use Rattle.records.specs.Record.{content_of, record_at};
ghost use Rattle.views.specs.Shown.{is_bad, shown_text, shown_thread, shown_referent, shown_stream, shown_at};
ghost use Rattle.views.specs.Models.Bounds.{Whole, ThreadInside, ReferentInside};
ghost use Rattle.views.specs.Models.Seen.{searched_of, seen_found, seen_of};
ghost use Rattle.views.specs.Models.Numbered.{argument_in};

use arguments::{Argued, Scalar};
use format::{Format, Reason, Reference};
use records::{Content, Layout, Own, Report};
use tables::{Registrations, Resolved};

// A text by its place and length in the archive, or its index where nothing is set for it.
#[derive(Clone, Copy)]
pub enum ShownText {
    At { place: usize, length: usize },
    Unresolved { index: usize },
}

// A thread by its process and thread words, or its index where nothing is set for it.
#[derive(Clone, Copy)]
pub enum ShownThread {
    Words { process: u64, thread: u64 },
    Unresolved { index: usize },
}

// A stream that is no reference, by its place and length in the archive.
#[derive(Clone, Copy)]
pub struct ShownStream {
    pub place: usize,
    pub length: usize,
}

// What a record refers to, as it is shown.
#[derive(Clone, Copy)]
pub enum ShownReferent {
    Text(ShownText),
    Thread(ShownThread),
}

// A record that refers to texts and threads, with the place by which its arguments are asked for. An event's references
// are its thread, category and name, its last word is the extra word, 0 where its type has none; it has no stream.
#[derive(Clone, Copy)]
pub struct ShownReport {
    pub place: usize,
    pub provider: Option<u32>,
    pub rate: u64,
    pub own: Own,
    pub first: ShownReferent,
    pub second: ShownReferent,
    pub third: ShownReferent,
    pub stream: ShownStream,
    pub count: usize,
    pub last: u64,
}

#[derive(Clone, Copy)]
pub enum ShownValue {
    Scalar(Scalar),
    Text(ShownText),
}

#[derive(Clone, Copy)]
pub struct ShownArgument {
    pub name: ShownText,
    pub value: ShownValue,
}

// Where so many arguments end, and whether every entry that they are looked up in belongs. One that does not is a flag and no refusal:
// what an argument behind it is refused by comes before it.
#[derive(Clone, Copy)]
pub struct Searched {
    pub at: usize,
    pub found: bool,
}

pub fn is_bad(r: Resolved) -> bool
    ensures { result ≡ is_bad r }
{
    match r {
        Resolved::Bad => true,
        Resolved::Known {
            place: _,
            length: _,
        } => false,
        Resolved::Unresolved { index: _ } => false,
    }
}

pub fn shown_text(r: Resolved) -> ShownText
    ensures { result ≡ shown_text r }
{
    match r {
        Resolved::Bad => ShownText::Unresolved { index: 0 },
        Resolved::Known { place, length } => ShownText::At { place, length },
        Resolved::Unresolved { index } => ShownText::Unresolved { index },
    }
}

fn shown_thread(f: Format, archive: &[u8], r: Resolved) -> ShownThread
    requires { ThreadInside (length archive.now) r }
    ensures { result ≡ shown_thread f archive.now r }
{
    match r {
        Resolved::Bad => ShownThread::Unresolved { index: 0 },
        Resolved::Known { place, length: _ } => ShownThread::Words {
            process: words::word(f.order, archive, place),
            thread: words::word(f.order, archive, place + 8),
        },
        Resolved::Unresolved { index } => ShownThread::Unresolved { index },
    }
}

// So many arguments are walked over, and what they refer to is looked up.
fn search_arguments(
    registrations: &Registrations,
    part: &[u8],
    place: usize,
    count: usize,
) -> Result<Searched, Reason>
    requires { place + length part.now < 2 ^ 63 }
    ensures { result ≡ searched_of registrations.now.format registrations.now.archive.now registrations.now.words.now registrations.now.context registrations.now.until (arguments_of registrations.now.format count part.now place) }
{
    let f = registrations.format;
    let mut rest = part;
    let mut at = place;
    let mut found = true;
    for _ in 0..count {
        let texts = arguments::texts_of(f, rest, at)?;
        if is_bad(registrations.resolve(2, texts.name)) {
            found = false;
        }
        if is_bad(registrations.resolve(2, texts.value)) {
            found = false;
        }
        rest = &rest[texts.size..];
        at += texts.size;
    }
    Ok(Searched { at, found })
}

// What a record refers to, as it is shown, by its table.
fn shown_referent(f: Format, archive: &[u8], table: u64, r: Resolved) -> ShownReferent
    requires { ReferentInside (length archive.now) table r }
    ensures { result ≡ shown_referent f archive.now table r }
{
    if table == 3 {
        return ShownReferent::Thread(shown_thread(f, archive, r));
    }
    ShownReferent::Text(shown_text(r))
}

// A stream that is no reference, as it is shown.
fn shown_stream(stream: Reference) -> ShownStream
    ensures { result ≡ shown_stream stream }
{
    match stream {
        Reference::Inline { place, length } => ShownStream { place, length },
        Reference::Index(_) => ShownStream {
            place: 0,
            length: 0,
        },
    }
}

// A record that refers to texts and threads, as it is shown.
fn shown_report(
    registrations: &Registrations,
    provider: Option<u32>,
    rate: u64,
    report: Report,
    a: Resolved,
    b: Resolved,
    c: Resolved,
) -> ShownReport
    requires { ReferentInside (length registrations.now.archive.now) report.first.table a × ReferentInside (length registrations.now.archive.now) report.second.table b × ReferentInside (length registrations.now.archive.now) report.third.table c }
    ensures { result ≡ shown_at registrations.now.format registrations.now.archive.now registrations.now.until provider rate report a b c }
{
    let f = registrations.format;
    let archive = registrations.archive;
    let own = report.own;
    let first = report.first;
    let second = report.second;
    let third = report.third;
    let stream = report.stream;
    ShownReport {
        place: registrations.until,
        provider,
        rate,
        own,
        first: shown_referent(f, archive, first.table, a),
        second: shown_referent(f, archive, second.table, b),
        third: shown_referent(f, archive, third.table, c),
        stream: shown_stream(stream),
        count: report.count,
        last: report.last,
    }
}

// What a step sees at the record that all is registered before, in which this was read, and whose arguments' entries all
// belong if `found`: a flag, since one walk over them has told it for the whole record.
fn see_referents(
    registrations: &Registrations,
    provider: Option<u32>,
    rate: u64,
    report: Report,
    found: bool,
) -> Result<ShownReport, u8>
    requires { (registrations.now.until ≤ length registrations.now.archive.now) × ((record_at registrations.now.format registrations.now.archive.now registrations.now.until).content ≡ Content.Report report) }
    ensures { result ≡ seen_found registrations.now.format registrations.now.archive.now registrations.now.words.now registrations.now.context registrations.now.until provider rate report found }
{
    let first = report.first;
    let second = report.second;
    let third = report.third;
    let one = first.reference;
    let two = second.reference;
    let three = third.reference;
    let a = registrations.resolve(first.table, one);
    let b = registrations.resolve(second.table, two);
    let c = registrations.resolve(third.table, three);
    if is_bad(a) {
        return Err(Reason::ForeignState.number());
    }
    if is_bad(b) {
        return Err(Reason::ForeignState.number());
    }
    if is_bad(c) {
        return Err(Reason::ForeignState.number());
    }
    if found {
        return Ok(shown_report(registrations, provider, rate, report, a, b, c));
    }
    Err(Reason::ForeignState.number())
}

// What a step sees at the record that is `source`, whole, at the place that all is registered before, and refers to texts and
// threads. Its arguments are walked over once. What it is refused by is a number and no Reason, since the definition, `seen_of`,
// is one of any content.
pub fn see_report(
    registrations: &Registrations,
    provider: Option<u32>,
    rate: u64,
    source: &[u8],
) -> Result<ShownReport, u8>
    requires { (registrations.now.until ≤ length registrations.now.archive.now) × (8 ≤ length source.now) × (registrations.now.until + length source.now < 2 ^ 62) × Whole registrations.now.format registrations.now.archive.now registrations.now.until source.now (report_of registrations.now.format source.now registrations.now.until) }
    ensures { result ≡ seen_of registrations.now.format registrations.now.archive.now registrations.now.words.now registrations.now.context registrations.now.until provider rate (report_of registrations.now.format source.now registrations.now.until) (registrations.now.until + length source.now) }
{
    let f = registrations.format;
    let place = registrations.until;
    let layout = records::layout_of(words::word(f.order, source, 0));
    let fields = records::take_fields(f, layout, source, place)?;
    let next = fields.next;
    let from = next - place;
    let rest = &source[from..];
    let searched = search_arguments(registrations, rest, next, layout.count)?;
    let last = records::last_word(f, source, place, searched.at, layout.behind)?;
    let report = records::report_read(
        f,
        layout,
        source,
        fields.first,
        fields.second,
        fields.third,
        fields.stream,
        next,
        last,
    );
    let found = searched.found;
    see_referents(registrations, provider, rate, report, found)
}

// The argument of this number of the record that is `source`, whole, at a place, and laid out so. Its arguments are walked
// over once.
fn take_argument(
    f: Format,
    layout: Layout,
    source: &[u8],
    at: usize,
    number: usize,
) -> Result<Argued, Reason>
    requires { (layout ≡ layout_of (word_at f.order source.now 0)) × (number < layout.count) × (8 ≤ length source.now) × (at + length source.now < 2 ^ 62) }
    ensures { result ≡ argument_in f source.now at (report_of f source.now at) number }
{
    let Ok(fields) = records::take_fields(f, layout, source, at) else {
        return Err(Reason::ForeignState);
    };
    let from = fields.next - at;
    let Ok(sought) = arguments::seek(f, &source[from..], fields.next, layout.count, number) else {
        return Err(Reason::ForeignState);
    };
    let Ok(_) = records::last_word(f, source, at, sought.at, layout.behind) else {
        return Err(Reason::ForeignState);
    };
    let before = sought.start - at;
    arguments::argument_of(f, &source[before..], sought.start)
}

// The argument of this number of the record that is `source`, whole, at a place, if there is one.
pub fn find_argument(f: Format, source: &[u8], at: usize, number: usize) -> Result<Argued, Reason>
    requires { (8 ≤ length source.now) × (at + length source.now < 2 ^ 62) }
    ensures { result ≡ argument_in f source.now at (content_of f source.now at) number }
{
    let layout = records::layout_of(words::word(f.order, source, 0));
    if layout.read {
        if layout.count <= number {
            return Err(Reason::ForeignState);
        }
        return take_argument(f, layout, source, at, number);
    }
    Err(Reason::ForeignState)
}
