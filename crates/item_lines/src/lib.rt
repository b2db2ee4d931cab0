// The lines of document 01's listing, each put into a lent buffer behind what was put before. What does not fit is left out. Nothing
// here asks anything of its caller.
#![tactic(auto)]

ghost use Rattle.lines.specs.Put.{Adds};
ghost use Rattle.item_lines.specs.Line.{provider_info_line, section_line, provider_event_line, initialization_line, skipped_line, timestamp_shown, event_start, referents_shown, extra_shown, event_shown, log_shown, own_shown, report_line, argument_line, end_line, answer_line, asked_line};

use format::Refused;
use lines::{Cursor, value_type};
use reader::Answer;
use records::{Event, Log, Own};
use views::{ShownArgument, ShownReport};

pub fn put_end(out: &mut Cursor, number: u8, place: usize)
    ensures { Adds out.old (end_line number place) out.new }
{
    out.put_bytes(b"end");
    out.put_number(u64::from(number));
    out.put_number(place as u64);
    out.put_bytes(b"\n");
}

fn put_provider_info(out: &mut Cursor, id: u32, name: &[u8])
    ensures { Adds out.old (provider_info_line id name.now) out.new }
{
    out.put_bytes(b"P");
    out.put_number(u64::from(id));
    out.put_text_bytes(name);
    out.put_bytes(b"\n");
}

fn put_section(out: &mut Cursor, id: u32)
    ensures { Adds out.old (section_line id) out.new }
{
    out.put_bytes(b"S");
    out.put_number(u64::from(id));
    out.put_bytes(b"\n");
}

fn put_provider_event(out: &mut Cursor, id: u32, event: u8)
    ensures { Adds out.old (provider_event_line id event) out.new }
{
    out.put_bytes(b"V");
    out.put_number(u64::from(id));
    out.put_number(u64::from(event));
    out.put_bytes(b"\n");
}

fn put_initialization(out: &mut Cursor, rate: u64)
    ensures { Adds out.old (initialization_line rate) out.new }
{
    out.put_bytes(b"I");
    out.put_number(rate);
    out.put_bytes(b"\n");
}

fn put_skipped(out: &mut Cursor, record_type: u8, size: u64)
    ensures { Adds out.old (skipped_line record_type size) out.new }
{
    out.put_bytes(b"K");
    out.put_number(u64::from(record_type));
    out.put_number(size);
    out.put_bytes(b"\n");
}

// A timestamp with its provider and the rate in force.
fn put_timestamp(out: &mut Cursor, provider: Option<u32>, timestamp: u64, rate: u64)
    ensures { Adds out.old (timestamp_shown provider timestamp rate) out.new }
{
    out.put_provider(provider);
    out.put_number(timestamp);
    out.put_number(rate);
}

// An event's line up to its rate.
fn put_event_start(out: &mut Cursor, event: Event, report: ShownReport)
    ensures { Adds out.old (event_start event report) out.new }
{
    out.put_bytes(b"E");
    out.put_number(u64::from(event.variant));
    put_timestamp(out, report.provider, event.timestamp, report.rate);
}

// The three that an event refers to.
fn put_referents(out: &mut Cursor, archive: &[u8], report: ShownReport)
    ensures { Adds out.old (referents_shown archive.now report) out.new }
{
    out.put_referent(archive, report.first);
    out.put_referent(archive, report.second);
    out.put_referent(archive, report.third);
}

// The extra word of an event, where its type has one.
fn put_extra(out: &mut Cursor, variant: u8, extra: u64)
    ensures { Adds out.old (extra_shown variant extra) out.new }
{
    if records::has_extra(u64::from(variant)) {
        out.put_number(extra);
    }
}

// An event's letter and fields.
fn put_event(out: &mut Cursor, archive: &[u8], event: Event, report: ShownReport)
    ensures { Adds out.old (event_shown archive.now event report) out.new }
{
    put_event_start(out, event, report);
    put_referents(out, archive, report);
    out.put_number(report.count as u64);
    put_extra(out, event.variant, report.last);
}

// A log's letter and fields.
fn put_log(out: &mut Cursor, archive: &[u8], log: Log, report: ShownReport)
    ensures { Adds out.old (log_shown archive.now log report) out.new }
{
    let message = report.stream;
    out.put_bytes(b"L");
    put_timestamp(out, report.provider, log.timestamp, report.rate);
    out.put_referent(archive, report.first);
    out.put_text_bytes(reader::text(archive, message.place, message.length));
}

// What is a report's own says, here alone, which letter and which fields in which order.
fn put_own(out: &mut Cursor, archive: &[u8], own: Own, report: ShownReport)
    ensures { Adds out.old (own_shown archive.now own report) out.new }
{
    match own {
        Own::Event(event) => put_event(out, archive, event, report),
        Own::Log(log) => put_log(out, archive, log, report),
    }
}

// The line of a report.
fn put_report(out: &mut Cursor, archive: &[u8], report: ShownReport)
    ensures { Adds out.old (report_line archive.now report) out.new }
{
    put_own(out, archive, report.own, report);
    out.put_bytes(b"\n");
}

// The line of an answer: its item's or its end's, and none where it shows nothing.
pub fn put_answer(out: &mut Cursor, archive: &[u8], answer: Answer)
    ensures { Adds out.old (answer_line archive.now answer) out.new }
{
    match answer {
        Answer::End { number, place } => put_end(out, number, place),
        Answer::Nothing => {}
        Answer::Magic => out.put_bytes(b"M\n"),
        Answer::ProviderInfo { id, place, length } => {
            put_provider_info(out, id, reader::text(archive, place, length))
        }
        Answer::Section { id } => put_section(out, id),
        Answer::ProviderEvent { id, event } => put_provider_event(out, id, event),
        Answer::Initialization { rate } => put_initialization(out, rate),
        Answer::Report(report) => put_report(out, archive, report),
        Answer::Skipped { record_type, size } => put_skipped(out, record_type, size),
    }
}

fn put_argument(out: &mut Cursor, archive: &[u8], argument: ShownArgument)
    ensures { Adds out.old (argument_line archive.now argument) out.new }
{
    out.put_bytes(b"A");
    out.put_number(value_type(argument.value));
    out.put_text(archive, argument.name);
    out.put_value(archive, argument.value);
    out.put_bytes(b"\n");
}

// The line of what was asked for: the argument's, or its refusal's.
pub fn put_asked(out: &mut Cursor, archive: &[u8], asked: Result<ShownArgument, Refused>)
    ensures { Adds out.old (asked_line archive.now asked) out.new }
{
    match asked {
        Err(refused) => put_end(out, refused.number, refused.place),
        Ok(argument) => put_argument(out, archive, argument),
    }
}
