// How a record is written again: the registrations before it that are new, its references by index or inline, its arguments and its header.
// The room is four stretches of words: the reading tables, and the three of the tally, in which choices stand for uses; the last remembers the
// slots of what the entries of the reading tables stand for.
#![tactic(auto)]

ghost use Rattle.std.specs.Prelude.{◌≡◌, [], ◌∷◌, ◌++◌, false, ◌+◌, ◌-◌, ◌*◌, ◌^◌, ◌<◌, ◌≤◌, length};
ghost use Rattle.passes.specs.Models.Item.{plain_item};
ghost use Rattle.indexing.specs.Models.Indexes.{Settled};
ghost use Rattle.encoding.specs.Encoded.{words_bytes, part_bytes, parts_bytes};
ghost use Rattle.encoding.specs.Models.Output.{Holds, Writes, Heads};
ghost use Rattle.encoding.specs.Models.Part.{referent_reference};
ghost use Rattle.format.specs.Limits.{longest_archive};
ghost use Rattle.arguments.specs.Argument.{arguments_read};
ghost use Rattle.records.specs.Record.{record_at};
ghost use Rattle.records.specs.Item.{own_layout, last_words};
ghost use Rattle.records.specs.Lookups.{text_lookup, argument_lookups, report_lookups};
ghost use Rattle.tables.specs.Table.{table_words};
ghost use Rattle.tables.specs.Models.Entries.{FormatFits};
ghost use Rattle.tally.specs.Models.Tally.{Wide};
ghost use Rattle.views.specs.Shown.{shown_stream};
ghost use Rattle.reader.specs.Reads.{stream_item};
ghost use Rattle.rewriting.specs.Models.Write.{tables_in, slots_in, registration_bytes, registered_room, registered_bytes, slot_spelled, slot_given_slots, slot_given_bytes, spelled_in, SpelledAs};
ghost use Rattle.rewriting.specs.Models.Write.{spelled_part, spelled_bytes, argument_in, arguments_in, spelled_pieces, spelled_header, report_in, plain_bytes, content_in, content_room};
ghost use Rattle.rewriting.specs.Models.Fits.{RoomFits, RemembersIn, RemembersFor, RegistrationFits, SlotFits, LookupsFitIn, CanLookUp, SpelledThread, ArgumentFitsIn, ArgumentsFitIn, ReportAt, SpelledHeaderFits, ReportFitsIn, PlainFits, ContentFitsIn};

use arguments::{Argument, Value};
use contexts::State;
use encoding::Output;
use format::{Format, Reference};
use records::{Content, Lookup, Report};
use tables::{Registrations, Resolved};

// A text or a thread as it is written: by its index, or inline, where that is 0, from its place and length in the archive.
#[derive(Clone, Copy)]
pub struct Spelled {
    pub index: usize,
    pub place: usize,
    pub long: usize,
}

// The registration of a key under an index; none where that is 0.
fn put_registration(out: &mut Output, table: u64, index: usize, bytes: &[u8])
    requires registration_fits { RegistrationFits table index bytes.now }
    requires bytes_in_bounds { Holds out.old (λ f. registration_bytes f table index bytes.now) }
    ensures { Writes out.old (λ f. registration_bytes f table index bytes.now) out.new }
{
    if index == 0 {
        return;
    }
    if table == 3 {
        let order = out.format.order;
        return out.put_thread_record(
            index,
            words::word(order, bytes, 0),
            words::word(order, bytes, 8),
        );
    }
    out.put_string_record(index, bytes);
}

// The key of a slot is registered, where it is to be and is not yet.
fn register_slot(archive: &[u8], room: &mut [u32], out: &mut Output, table: u64, s: usize)
    requires format_fits { FormatFits out.old.format × (4 * table_words out.old.format ≤ length room.old) × SlotFits out.old.format archive.now (slots_in out.old.format room.old) table s }
    requires s_in_bounds { Holds out.old (λ f. slot_given_bytes f archive.now (slots_in f room.old) table s) }
    ensures room_after { room.new ≡ tables_in out.old.format room.old ++ slot_given_slots out.old.format (slots_in out.old.format room.old) s }
    ensures out_after { Writes out.old (λ f. slot_given_bytes f archive.now (slots_in f room.old) table s) out.new }
{
    let words = tables::table_words(out.format);
    let first = room[words + s];
    let second = room[2 * words + s];
    let label = tally::label_in(first, second);
    let index = indexing::give_index_at(&mut room[words..], words, s, label);
    let bytes = reader::text(archive, tally::place_in(first), label % 65536);
    put_registration(out, table, index, bytes);
}

// What a reference stands for is registered, where it is to be and is not yet.
fn register_resolved(
    archive: &[u8],
    room: &mut [u32],
    out: &mut Output,
    context: usize,
    until: usize,
    lookup: Lookup,
)
    requires room_fits { RoomFits out.old.format archive.now room.old context × LookupsFitIn out.old.format archive.now room.old context until (lookup ∷ []) }
    requires lookup_in_bounds { Holds out.old (λ f. registered_bytes f archive.now room.old context until (lookup ∷ [])) }
    ensures room_after { room.new ≡ registered_room out.old.format archive.now room.old context until (lookup ∷ []) }
    ensures out_after { Writes out.old (λ f. registered_bytes f archive.now room.old context until (lookup ∷ [])) out.new }
{
    let f = out.format;
    let words = tables::table_words(f);
    let table = lookup.table;
    let reference = lookup.reference;
    let registrations = Registrations {
        format: f,
        archive,
        words: &room[..words],
        context,
        until,
    };
    match registrations.resolve(table, reference) {
        Resolved::Bad => {}
        Resolved::Unresolved { index: _ } => {}
        Resolved::Known { place, length } => {
            if length == 0 {
                return;
            }
            let label = tally::label_of(context, table, length);
            let index = indexing::give_index(archive, &mut room[words..], words, place, label);
            put_registration(out, table, index, reader::text(archive, place, length));
        }
    }
}

// The same, by the slot that is remembered for the reference, where there is one.
fn register_lookup(
    archive: &[u8],
    room: &mut [u32],
    out: &mut Output,
    context: usize,
    until: usize,
    lookup: Lookup,
)
    requires room_fits { RoomFits out.old.format archive.now room.old context × LookupsFitIn out.old.format archive.now room.old context until (lookup ∷ []) × RemembersIn out.old.format archive.now room.old until }
    requires lookup_in_bounds { Holds out.old (λ f. registered_bytes f archive.now room.old context until (lookup ∷ [])) }
    ensures room_after { room.new ≡ registered_room out.old.format archive.now room.old context until (lookup ∷ []) }
    ensures out_after { Writes out.old (λ f. registered_bytes f archive.now room.old context until (lookup ∷ [])) out.new }
{
    let words = tables::table_words(out.format);
    let table = lookup.table;
    let reference = lookup.reference;
    if let Some(slot) = passes::recall(out.format, &room[words..], context, table, reference) {
        return register_slot(archive, room, out, table, slot);
    }
    register_resolved(archive, room, out, context, until, lookup);
}

// The registrations that so many arguments want.
fn register_arguments(
    archive: &[u8],
    room: &mut [u32],
    out: &mut Output,
    context: usize,
    until: usize,
    part: &[u8],
    place: usize,
    count: usize,
)
    requires room_fits { RoomFits out.old.format archive.now room.old context × LookupsFitIn out.old.format archive.now room.old context until (argument_lookups (arguments_read out.old.format count part.now place)) × RemembersIn out.old.format archive.now room.old until }
    requires part_bound { (place + length part.now ≤ longest_archive) × Holds out.old (λ f. registered_bytes f archive.now room.old context until (argument_lookups (arguments_read f count part.now place))) }
    ensures room_after { room.new ≡ registered_room out.old.format archive.now room.old context until (argument_lookups (arguments_read out.old.format count part.now place)) }
    ensures out_after { Writes out.old (λ f. registered_bytes f archive.now room.old context until (argument_lookups (arguments_read f count part.now place))) out.new }
{
    let mut rest = part;
    let mut from = place;
    for _ in 0..count {
        let Ok(texts) = arguments::texts_of(out.format, rest, from) else {
            return;
        };
        let named = Lookup {
            table: 2,
            reference: texts.name,
        };
        let held = Lookup {
            table: 2,
            reference: texts.value,
        };
        register_lookup(archive, room, out, context, until, named);
        register_lookup(archive, room, out, context, until, held);
        rest = &rest[texts.size..];
        from += texts.size;
    }
}

// The registrations that a record which refers to texts and threads wants.
fn register_report(
    archive: &[u8],
    room: &mut [u32],
    out: &mut Output,
    s: State,
    report: Report,
    next: usize,
)
    requires room_fits { RoomFits out.old.format archive.now room.old s.current × ReportAt out.old.format archive.now s report next × RemembersIn out.old.format archive.now room.old s.place }
    requires lookups_fit_in { LookupsFitIn out.old.format archive.now room.old s.current s.place (report_lookups out.old.format archive.now report next) }
    requires next_in_bounds { Holds out.old (λ f. registered_bytes f archive.now room.old s.current s.place (report_lookups f archive.now report next)) }
    ensures room_after { room.new ≡ registered_room out.old.format archive.now room.old s.current s.place (report_lookups out.old.format archive.now report next) }
    ensures out_after { Writes out.old (λ f. registered_bytes f archive.now room.old s.current s.place (report_lookups f archive.now report next)) out.new }
{
    let until = s.place;
    let context = s.current;
    let start = report.arguments;
    register_lookup(archive, room, out, context, until, report.first);
    register_lookup(archive, room, out, context, until, report.second);
    register_lookup(archive, room, out, context, until, report.third);
    register_arguments(
        archive,
        room,
        out,
        context,
        until,
        &archive[start..next],
        start,
        report.count,
    );
}

// The registrations that such a record wants; it is not walked where no key waits for its index.
fn register_waiting(
    archive: &[u8],
    room: &mut [u32],
    out: &mut Output,
    s: State,
    report: Report,
    next: usize,
    waits: bool,
)
    requires room_fits { RoomFits out.old.format archive.now room.old s.current × ReportAt out.old.format archive.now s report next × RemembersIn out.old.format archive.now room.old s.place }
    requires lookups_fit_in { LookupsFitIn out.old.format archive.now room.old s.current s.place (report_lookups out.old.format archive.now report next) }
    requires next_in_bounds { Holds out.old (λ f. registered_bytes f archive.now room.old s.current s.place (report_lookups f archive.now report next)) }
    requires settled { waits ≡ false → Settled (table_words out.old.format) (slots_in out.old.format room.old) }
    ensures room_after { room.new ≡ registered_room out.old.format archive.now room.old s.current s.place (report_lookups out.old.format archive.now report next) }
    ensures out_after { Writes out.old (λ f. registered_bytes f archive.now room.old s.current s.place (report_lookups f archive.now report next)) out.new }
{
    if waits {
        register_report(archive, room, out, s, report, next);
    }
}

// How the key of a slot is written.
fn spell_slot(slots: &[u32], stretch: usize, s: usize) -> Spelled
    requires { Wide stretch slots.now × (s < stretch - 18) }
    ensures { result ≡ slot_spelled stretch slots.now s }
{
    let first = slots[s];
    let second = slots[stretch + s];
    let index = indexing::index_at(slots, stretch, s);
    Spelled {
        index,
        place: tally::place_in(first),
        long: tally::label_in(first, second) % 65536,
    }
}

// How what a reference stands for is written.
fn spell_resolved(
    f: Format,
    archive: &[u8],
    room: &[u32],
    context: usize,
    until: usize,
    lookup: Lookup,
) -> Spelled
    requires { RoomFits f archive.now room.now context × CanLookUp lookup }
    ensures { result ≡ spelled_in f archive.now room.now context until lookup }
{
    let words = tables::table_words(f);
    let table = lookup.table;
    let reference = lookup.reference;
    let registrations = Registrations {
        format: f,
        archive,
        words: &room[..words],
        context,
        until,
    };
    match registrations.resolve(table, reference) {
        Resolved::Bad => Spelled {
            index: 0,
            place: 0,
            long: 0,
        },
        Resolved::Unresolved { index } => Spelled {
            index,
            place: 0,
            long: 0,
        },
        Resolved::Known { place, length } => {
            let label = tally::label_of(context, table, length);
            let index = indexing::index_of(archive, &room[words..], words, place, label);
            Spelled {
                index,
                place,
                long: length,
            }
        }
    }
}

// How a reference is written: by the slot that is remembered for it, where there is one.
fn spell(
    f: Format,
    archive: &[u8],
    room: &[u32],
    context: usize,
    until: usize,
    lookup: Lookup,
) -> Spelled
    requires { RoomFits f archive.now room.now context × CanLookUp lookup × RemembersIn f archive.now room.now until }
    ensures { SpelledAs archive.now result (spelled_in f archive.now room.now context until lookup) }
{
    let words = tables::table_words(f);
    let reference = lookup.reference;
    if let Some(slot) = passes::recall(f, &room[words..], context, lookup.table, reference) {
        return spell_slot(&room[words..], words, slot);
    }
    spell_resolved(f, archive, room, context, until, lookup)
}

// The same for a text: arguments refer to texts alone. The slow way has two callers, so that it stays a function, and the quick way is small enough
// to be put where it is called.
fn spell_text(
    f: Format,
    archive: &[u8],
    room: &[u32],
    context: usize,
    until: usize,
    reference: Reference,
) -> Spelled
    requires { RoomFits f archive.now room.now context × CanLookUp (text_lookup reference) × RemembersIn f archive.now room.now until }
    ensures { SpelledAs archive.now result (spelled_in f archive.now room.now context until (text_lookup reference)) }
{
    let words = tables::table_words(f);
    if let Some(slot) = passes::recall(f, &room[words..], context, 2, reference) {
        return spell_slot(&room[words..], words, slot);
    }
    let lookup = Lookup {
        table: 2,
        reference,
    };
    spell_resolved(f, archive, room, context, until, lookup)
}

// A text or a thread that is spelled so, in a body.
fn put_spelled(archive: &[u8], out: &mut Output, table: u64, spelled: Spelled)
    requires { SpelledThread table archive.now spelled × Holds out.old (λ f. part_bytes f (spelled_part f archive.now table spelled)) }
    ensures { Writes out.old (λ f. part_bytes f (spelled_part f archive.now table spelled)) out.new }
{
    let bytes = reader::text(archive, spelled.place, spelled.long);
    out.put_referent(table, spelled.index, bytes);
}

// Its reference.
fn spelled_reference(archive: &[u8], table: u64, spelled: Spelled) -> u64
    ensures { result ≡ referent_reference table spelled.index (spelled_bytes archive.now spelled) }
{
    let bytes = reader::text(archive, spelled.place, spelled.long);
    encoding::referent_reference(table, spelled.index, bytes)
}

// An argument.
fn put_argument(
    archive: &[u8],
    room: &[u32],
    out: &mut Output,
    context: usize,
    until: usize,
    argument: Argument,
)
    requires room_fits { RoomFits out.old.format archive.now room.now context × ArgumentFitsIn out.old.format archive.now room.now context until argument × RemembersIn out.old.format archive.now room.now until }
    requires argument_in_bounds { Holds out.old (λ f. argument_in f archive.now room.now context until argument) }
    ensures { Writes out.old (λ f. argument_in f archive.now room.now context until argument) out.new }
{
    let f = out.format;
    let reference = argument.name;
    let value = argument.value;
    let named = spell_text(f, archive, room, context, until, reference);
    let index = named.index;
    let bytes = reader::text(archive, named.place, named.long);
    match value {
        Value::Scalar(scalar) => argument_encoding::put_scalar_argument(out, scalar, index, bytes),
        Value::Text(inside) => {
            let held = spell_text(f, archive, room, context, until, inside);
            let content = reader::text(archive, held.place, held.long);
            argument_encoding::put_text_argument(out, index, bytes, held.index, content);
        }
    }
}

// So many arguments.
fn put_arguments(
    archive: &[u8],
    room: &[u32],
    out: &mut Output,
    context: usize,
    until: usize,
    part: &[u8],
    place: usize,
    count: usize,
)
    requires room_fits { RoomFits out.old.format archive.now room.now context × ArgumentsFitIn out.old.format archive.now room.now context until (arguments_read out.old.format count part.now place) × RemembersIn out.old.format archive.now room.now until }
    requires part_bound { (place + length part.now ≤ longest_archive) × Holds out.old (λ f. arguments_in f archive.now room.now context until (arguments_read f count part.now place)) }
    ensures { Writes out.old (λ f. arguments_in f archive.now room.now context until (arguments_read f count part.now place)) out.new }
{
    let mut rest = part;
    let mut from = place;
    for _ in 0..count {
        let Ok(argued) = arguments::argument_of(out.format, rest, from) else {
            return;
        };
        put_argument(archive, room, out, context, until, argued.argument);
        rest = &rest[argued.size..];
        from += argued.size;
    }
}

// The last word of a record, where its kind has one.
fn put_last(archive: &[u8], out: &mut Output, place: usize, report: Report)
    requires { ((record_at out.old.format archive.now place).content ≡ Content.Report report) × Holds out.old (λ f. words_bytes f (last_words (own_layout report.own).behind report.last)) }
    ensures { Writes out.old (λ f. words_bytes f (last_words (own_layout report.own).behind report.last)) out.new }
{
    if records::own_behind(out.format, archive, place, report) != 0 {
        out.put_word(report.last);
    }
}

// The bytes of a stream that is no reference.
fn stream_bytes(archive: &[u8], stream: Reference) -> &[u8]
    ensures { result.now ≡ stream_item archive.now (shown_stream stream) }
{
    match stream {
        Reference::Inline { place, length } => reader::text(archive, place, length),
        Reference::Index(_) => reader::text(archive, 0, 0),
    }
}

// The pieces of a record before its arguments: its own words, its three references and its stream.
fn put_pieces(
    archive: &[u8],
    out: &mut Output,
    report: Report,
    first: Spelled,
    second: Spelled,
    third: Spelled,
)
    requires spelled_thread { SpelledThread report.first.table archive.now first × SpelledThread report.second.table archive.now second × SpelledThread report.third.table archive.now third }
    requires third_in_bounds { Holds out.old (λ f. parts_bytes f (spelled_pieces f archive.now report first second third)) }
    ensures { Writes out.old (λ f. parts_bytes f (spelled_pieces f archive.now report first second third)) out.new }
{
    out.put_own_words(report.own);
    put_spelled(archive, out, report.first.table, first);
    put_spelled(archive, out, report.second.table, second);
    put_spelled(archive, out, report.third.table, third);
    out.put_stream(stream_bytes(archive, report.stream));
}

// The header of a record of this size in words, written at an earlier place, where it was left out.
fn put_header(
    archive: &[u8],
    out: &mut Output,
    start: usize,
    size: usize,
    report: Report,
    first: Spelled,
    second: Spelled,
    third: Spelled,
)
    requires { (size < 2 ^ 12) × SpelledHeaderFits out.old.format archive.now report first second third × (start + 8 ≤ length out.old.buffer.now) }
    ensures { Heads out.old start (λ f. spelled_header f archive.now size report first second third) out.new }
{
    out.put_report_header(
        start,
        report.own,
        size,
        report.count,
        spelled_reference(archive, report.first.table, first),
        spelled_reference(archive, report.second.table, second),
        spelled_reference(archive, report.third.table, third),
        stream_bytes(archive, report.stream).len(),
    );
}

// A record that refers to texts and threads. Its header, which holds the size, is written last.
fn put_report(archive: &[u8], room: &[u32], out: &mut Output, s: State, report: Report, next: usize)
    requires room_fits { RoomFits out.old.format archive.now room.now s.current × ReportAt out.old.format archive.now s report next × ReportFitsIn out.old.format archive.now room.now s report next × RemembersIn out.old.format archive.now room.now s.place }
    requires next_in_bounds { Holds out.old (λ f. report_in f archive.now room.now s report next) }
    ensures { Writes out.old (λ f. report_in f archive.now room.now s report next) out.new }
{
    let f = out.format;
    let until = s.place;
    let context = s.current;
    let from = report.arguments;
    let first = spell(f, archive, room, context, until, report.first);
    let second = spell(f, archive, room, context, until, report.second);
    let third = spell(f, archive, room, context, until, report.third);
    let start = out.place;
    out.place += 8;
    put_pieces(archive, out, report, first, second, third);
    let part = &archive[from..next];
    put_arguments(archive, room, out, context, until, part, from, report.count);
    put_last(archive, out, until, report);
    let size = (out.place - start) / 8;
    put_header(archive, out, start, size, report, first, second, third);
}

// The record of an item that refers to nothing; nothing for a record that shows none.
fn put_plain(archive: &[u8], out: &mut Output, content: Content)
    requires { PlainFits (plain_item archive.now content) × Holds out.old (λ f. plain_bytes f (plain_item archive.now content)) }
    ensures { Writes out.old (λ f. plain_bytes f (plain_item archive.now content)) out.new }
{
    match content {
        Content::Magic => out.put_magic(),
        Content::ProviderInfo { id, place, length } => {
            out.put_provider_info(id, reader::text(archive, place, length))
        }
        Content::Section { id } => out.put_section(id),
        Content::ProviderEvent { id, event } => out.put_provider_event(id, event),
        Content::Initialization { rate } => out.put_initialization(rate),
        Content::Report(_) => {}
        Content::Refused(_) => {}
        Content::String {
            index: _,
            place: _,
            length: _,
        } => {}
        Content::Thread { index: _, place: _ } => {}
        Content::Ignored => {}
        Content::Skipped {
            record_type: _,
            size: _,
        } => {}
    }
}

// The record of an item, with the registrations before it.
pub fn put_record(
    archive: &[u8],
    room: &mut [u32],
    out: &mut Output,
    s: State,
    content: Content,
    next: usize,
    waits: bool,
)
    requires room_fits { RoomFits out.old.format archive.now room.old s.current × (s.place ≤ length archive.now) × (record_at out.old.format archive.now s.place ≡ record { content = content; next = next }) × RemembersFor out.old.format archive.now room.old s content }
    requires content_fits_in { ContentFitsIn out.old.format archive.now room.old s content next × (waits ≡ false → Settled (table_words out.old.format) (slots_in out.old.format room.old)) }
    requires next_in_bounds { Holds out.old (λ f. content_in f archive.now room.old s content next) }
    ensures room_after { room.new ≡ content_room out.old.format archive.now room.old s content next }
    ensures out_after { Writes out.old (λ f. content_in f archive.now room.old s content next) out.new }
{
    match content {
        Content::Report(report) => {
            register_waiting(archive, room, out, s, report, next, waits);
            put_report(archive, room, out, s, report, next);
        }
        _ => put_plain(archive, out, content),
    }
}
