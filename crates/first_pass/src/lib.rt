// The first pass of a repack: it finds what the archive is refused by, and counts the uses of each text and thread in the room.
// The room is four stretches of words: the reading tables, and the three of the tally.
#![tactic(auto)]

ghost use Rattle.std.specs.Prelude.{◌≡◌, [], ◌∷◌, ◌++◌, true, ℕ, ◌+◌, ◌*◌, ◌<◌, ◌≤◌, length, take, drop, get_or};
ghost use Rattle.passes.specs.Models.Last.{tables_of};
ghost use Rattle.format.specs.Limits.{longest_archive};
ghost use Rattle.tables.specs.Models.Entries.{FormatFits};
ghost use Rattle.words.specs.Word.{pick};
ghost use Rattle.arguments.specs.Argument.{arguments_read};
ghost use Rattle.records.specs.Lookups.{text_lookup, argument_lookups};
ghost use Rattle.tables.specs.Table.{table_words, resolved};
ghost use Rattle.reader.specs.Step.{opening_number};
ghost use Rattle.first_pass.specs.Models.Count.{tables_in, slots_in, CanCount, Recalls, CanStand, RecordIs, count_good, count_slots, AllKept, words_read, unresolved_in, lookup_good, lookup_slots, lookups_good};
ghost use Rattle.first_pass.specs.Models.Count.{lookups_slots, any_unresolved, report_good, report_slots, report_unresolved, report_words, report_checked, plain_words, keeps_to, record_checked, checked_slots};
ghost use Rattle.first_pass.specs.Models.Found.{lowest_of, concluded, CountIs};
ghost use Rattle.first_pass.specs.Models.Left.{SlotsLeft};

use contexts::State;
use format::{Format, Reason, Reference, Refused};
use records::{Content, Report};
use tables::{Registrations, Resolved};

// Bytes that a reference stands for are counted, and their slot is remembered for it; false where they are new and their table would hold no
// more.
fn count_known(
    f: Format,
    archive: &[u8],
    room: &mut [u32],
    context: usize,
    table: u64,
    reference: Reference,
    place: usize,
    length: usize,
) -> bool
    requires { CanCount f archive.now room.old context × (2 ≤ table) × (table ≤ 3) × (place + length ≤ longest_archive) × (length < 65536) }
    ensures value { result ≡ count_good f archive.now (slots_in f room.old) context table (Resolved.Known place length) }
    ensures room_after { room.new ≡ tables_in f room.old ++ count_slots f archive.now (slots_in f room.old) context table reference (Resolved.Known place length) }
{
    let words = tables::table_words(f);
    if length == 0 {
        return true;
    }
    let label = tally::label_of(context, table, length);
    let highest = tables::highest_of(f, table);
    let slot = tally::add_use(archive, &mut room[words..], words, place, label, highest);
    passes::note(f, &mut room[words..], context, table, reference, slot);
    slot.is_some()
}

// What a reference stands for is looked up and counted; false where it is unresolved, or where it is new and its table would hold no more. It has
// two callers, so that it stays a function, and their quick way is small enough to be put where they are called.
fn count_resolved(
    f: Format,
    archive: &[u8],
    room: &mut [u32],
    context: usize,
    table: u64,
    reference: Reference,
    until: usize,
) -> bool
    requires { CanCount f archive.now room.old context × (2 ≤ table) × (table ≤ 3) × CanStand archive.now reference }
    ensures value { result ≡ lookup_good f archive.now (tables_in f room.old) (slots_in f room.old) context until (record { table = table; reference = reference }) }
    ensures room_after { room.new ≡ tables_in f room.old ++ lookup_slots f archive.now (tables_in f room.old) (slots_in f room.old) context until (record { table = table; reference = reference }) }
{
    let words = tables::table_words(f);
    let registrations = Registrations {
        format: f,
        archive,
        words: &room[..words],
        context,
        until,
    };
    match registrations.resolve(table, reference) {
        Resolved::Bad => false,
        Resolved::Unresolved { index: _ } => false,
        Resolved::Known { place, length } => {
            count_known(f, archive, room, context, table, reference, place, length)
        }
    }
}

// The same; where a slot is remembered for the reference, nothing is looked up and no key is searched for.
fn count_reference(
    f: Format,
    archive: &[u8],
    room: &mut [u32],
    context: usize,
    table: u64,
    reference: Reference,
    until: usize,
) -> bool
    requires { CanCount f archive.now room.old context × (2 ≤ table) × (table ≤ 3) × CanStand archive.now reference × Recalls f archive.now room.old until }
    ensures value { result ≡ lookup_good f archive.now (tables_in f room.old) (slots_in f room.old) context until (record { table = table; reference = reference }) }
    ensures room_after { room.new ≡ tables_in f room.old ++ lookup_slots f archive.now (tables_in f room.old) (slots_in f room.old) context until (record { table = table; reference = reference }) }
{
    let words = tables::table_words(f);
    if let Some(slot) = passes::recall(f, &room[words..], context, table, reference) {
        tally::use_again(&mut room[words..], words, slot);
        return true;
    }
    count_resolved(f, archive, room, context, table, reference, until)
}

// The same for a text: arguments refer to texts alone.
fn count_text(
    f: Format,
    archive: &[u8],
    room: &mut [u32],
    context: usize,
    reference: Reference,
    until: usize,
) -> bool
    requires { CanCount f archive.now room.old context × CanStand archive.now reference × Recalls f archive.now room.old until }
    ensures value { result ≡ lookup_good f archive.now (tables_in f room.old) (slots_in f room.old) context until (record { table = 2; reference = reference }) }
    ensures room_after { room.new ≡ tables_in f room.old ++ lookup_slots f archive.now (tables_in f room.old) (slots_in f room.old) context until (record { table = 2; reference = reference }) }
{
    let words = tables::table_words(f);
    if let Some(slot) = passes::recall(f, &room[words..], context, 2, reference) {
        tally::use_again(&mut room[words..], words, slot);
        return true;
    }
    count_resolved(f, archive, room, context, 2, reference, until)
}

// The name and the text of an argument are counted.
fn count_texts(
    f: Format,
    archive: &[u8],
    room: &mut [u32],
    context: usize,
    name: Reference,
    value: Reference,
    until: usize,
) -> bool
    requires { CanCount f archive.now room.old context × CanStand archive.now name × CanStand archive.now value × Recalls f archive.now room.old until }
    ensures value { result ≡ lookups_good f archive.now (tables_in f room.old) (slots_in f room.old) context until (text_lookup name ∷ text_lookup value ∷ []) }
    ensures room_after { room.new ≡ tables_in f room.old ++ lookups_slots f archive.now (tables_in f room.old) (slots_in f room.old) context until (text_lookup name ∷ text_lookup value ∷ []) }
{
    let named = count_text(f, archive, room, context, name, until);
    let valued = count_text(f, archive, room, context, value, until);
    words::both(named, valued)
}

// What counting adds: whether all uses were counted, and the words without them. A struct and no Result: both are wanted, since the words
// are counted whether the uses were or not.
#[derive(Clone, Copy)]
struct Added {
    good: bool,
    words: usize,
}

// So many arguments are counted, which lose nothing: what is no text of an argument are the words of its item.
fn count_arguments(
    f: Format,
    archive: &[u8],
    room: &mut [u32],
    context: usize,
    until: usize,
    part: &[u8],
    place: usize,
    count: usize,
) -> Added
    requires { CanCount f archive.now room.old context × (place + length part.now ≤ length archive.now) × (count < 16) × (0 < place) × Recalls f archive.now room.old until × AllKept f count part.now place }
    ensures good_value { result.good ≡ lookups_good f archive.now (tables_in f room.old) (slots_in f room.old) context until (argument_lookups (arguments_read f count part.now place)) }
    ensures words_value { result.words ≡ words_read (arguments_read f count part.now place) }
    ensures room_after { room.new ≡ tables_in f room.old ++ lookups_slots f archive.now (tables_in f room.old) (slots_in f room.old) context until (argument_lookups (arguments_read f count part.now place)) }
{
    let mut rest = part;
    let mut at = place;
    let mut good = true;
    let mut words = 0;
    for _ in 0..count {
        let Ok(texts) = arguments::texts_of(f, rest, at) else {
            return Added { good, words };
        };
        good = words::both(
            good,
            count_texts(f, archive, room, context, texts.name, texts.value, until),
        );
        let spelled = format::inline_bytes(texts.name) + format::inline_bytes(texts.value);
        words += (texts.size - spelled) / 8;
        rest = &rest[texts.size..];
        at += texts.size;
    }
    Added { good, words }
}

// The references of a record that ends at `next` and loses nothing are counted, and its words.
fn count_report(
    f: Format,
    archive: &[u8],
    room: &mut [u32],
    s: State,
    report: Report,
    next: usize,
) -> Added
    requires { CanCount f archive.now room.old s.current × RecordIs f archive.now s (Content.Report report) next × (0 < s.place) × Recalls f archive.now room.old s.place × (keeps_to f archive.now s (Content.Report report) next ≡ true) }
    ensures good_value { result.good ≡ report_good f archive.now (tables_in f room.old) (slots_in f room.old) s report next }
    ensures words_value { result.words ≡ report_words f archive.now (tables_in f room.old) s report next }
    ensures room_after { room.new ≡ tables_in f room.old ++ report_slots f archive.now (tables_in f room.old) (slots_in f room.old) s report next }
{
    let place = s.place;
    let context = s.current;
    let one = report.first;
    let one_reference = one.reference;
    let two = report.second;
    let two_reference = two.reference;
    let three = report.third;
    let three_reference = three.reference;
    let stream = report.stream;
    let from = report.arguments;
    let count = report.count;
    let first = count_reference(f, archive, room, context, one.table, one_reference, place);
    let second = count_reference(f, archive, room, context, two.table, two_reference, place);
    let third = count_reference(
        f,
        archive,
        room,
        context,
        three.table,
        three_reference,
        place,
    );
    let counted = count_arguments(
        f,
        archive,
        room,
        context,
        place,
        &archive[from..next],
        from,
        count,
    );
    let good = words::both(first, words::both(second, words::both(third, counted.good)));
    let fixed = 1
        + records::own_words(f, archive, place, report)
        + format::inline_bytes(stream) / 8;
    Added {
        good,
        words: fixed + counted.words + records::own_behind(f, archive, place, report),
    }
}

fn is_unresolved(registrations: &Registrations, table: u64, reference: Reference) -> bool
    ensures { result ≡ unresolved_in (resolved registrations.now.format registrations.now.archive.now registrations.now.words.now registrations.now.context table registrations.now.until reference) }
{
    match registrations.resolve(table, reference) {
        Resolved::Bad => true,
        Resolved::Unresolved { index: _ } => true,
        Resolved::Known {
            place: _,
            length: _,
        } => false,
    }
}

// Whether a reference of so many arguments is unresolved.
fn arguments_unresolved(
    registrations: &Registrations,
    part: &[u8],
    place: usize,
    count: usize,
) -> bool
    requires { place + length part.now ≤ longest_archive }
    ensures { result ≡ any_unresolved registrations.now.format registrations.now.archive.now registrations.now.words.now registrations.now.context registrations.now.until (argument_lookups (arguments_read registrations.now.format count part.now place)) }
{
    let f = registrations.format;
    let mut rest = part;
    let mut at = place;
    for _ in 0..count {
        let Ok(texts) = arguments::texts_of(f, rest, at) else {
            return false;
        };
        if is_unresolved(registrations, 2, texts.name) {
            return true;
        }
        if is_unresolved(registrations, 2, texts.value) {
            return true;
        }
        rest = &rest[texts.size..];
        at += texts.size;
    }
    false
}

// Whether a reference of a record that ends at `next` is unresolved.
fn report_unresolved(
    f: Format,
    archive: &[u8],
    tables: &[u32],
    s: State,
    report: Report,
    next: usize,
) -> bool
    requires { (table_words f ≤ length tables.now) × FormatFits f × (length archive.now ≤ longest_archive) × (s.current ≤ 8) × RecordIs f archive.now s (Content.Report report) next }
    ensures { result ≡ report_unresolved f archive.now tables.now s report next }
{
    let registrations = Registrations {
        format: f,
        archive,
        words: tables,
        context: s.current,
        until: s.place,
    };
    let one = report.first;
    let one_reference = one.reference;
    let two = report.second;
    let two_reference = two.reference;
    let three = report.third;
    let three_reference = three.reference;
    let from = report.arguments;
    let count = report.count;
    if is_unresolved(&registrations, one.table, one_reference) {
        return true;
    }
    if is_unresolved(&registrations, two.table, two_reference) {
        return true;
    }
    if is_unresolved(&registrations, three.table, three_reference) {
        return true;
    }
    arguments_unresolved(&registrations, &archive[from..next], from, count)
}

// What is found at a record that refers to texts and threads and loses nothing: the words that its item takes without them, or
// what it is refused by. Once something is found the uses are counted no more; `clean` is a flag, since the pass knows once for
// the whole record whether something was.
fn check_report(
    f: Format,
    archive: &[u8],
    room: &mut [u32],
    s: State,
    report: Report,
    next: usize,
    clean: bool,
) -> Result<usize, Reason>
    requires { CanCount f archive.now room.old s.current × RecordIs f archive.now s (Content.Report report) next × (0 < s.place) × Recalls f archive.now room.old s.place × (keeps_to f archive.now s (Content.Report report) next ≡ true) }
    ensures value { result ≡ report_checked f archive.now (tables_in f room.old) (slots_in f room.old) s report next clean }
    ensures room_after { room.new ≡ tables_in f room.old ++ pick clean (report_slots f archive.now (tables_in f room.old) (slots_in f room.old) s report next) (slots_in f room.old) }
{
    let words = tables::table_words(f);
    if clean {
        let counted = count_report(f, archive, room, s, report, next);
        if counted.good {
            return Ok(counted.words);
        }
        if report_unresolved(f, archive, &room[..words], s, report, next) {
            return Err(Reason::Unregistered);
        }
        return Err(Reason::ManyKeys);
    }
    if report_unresolved(f, archive, &room[..words], s, report, next) {
        return Err(Reason::Unregistered);
    }
    Ok(0)
}

// The words of a record that refers to nothing, where it shows an item.
fn plain_words(content: Content) -> usize
    ensures { result ≡ plain_words content }
{
    match content {
        Content::ProviderInfo {
            id: _,
            place: _,
            length,
        } => 1 + words::stream_words(length),
        Content::Magic => 1,
        Content::Section { id: _ } => 1,
        Content::ProviderEvent { id: _, event: _ } => 1,
        Content::Initialization { rate: _ } => 2,
        Content::Refused(_) => 0,
        Content::String {
            index: _,
            place: _,
            length: _,
        } => 0,
        Content::Thread { index: _, place: _ } => 0,
        Content::Report(_) => 0,
        Content::Ignored => 0,
        Content::Skipped {
            record_type: _,
            size: _,
        } => 0,
    }
}

// What is found at a record that ends at `next`, and loses nothing or something: `keeps` is a flag, since the walk that read the
// record has found it.
fn check_record(
    f: Format,
    archive: &[u8],
    room: &mut [u32],
    s: State,
    content: Content,
    next: usize,
    keeps: bool,
    clean: bool,
) -> Result<usize, Reason>
    requires { CanCount f archive.now room.old s.current × RecordIs f archive.now s content next × (keeps ≡ keeps_to f archive.now s content next) × ((q : Report) → content ≡ Content.Report q → Recalls f archive.now room.old s.place × (0 < s.place)) }
    ensures value { result ≡ record_checked f archive.now (tables_in f room.old) (slots_in f room.old) s content next clean }
    ensures room_after { room.new ≡ tables_in f room.old ++ checked_slots f archive.now (tables_in f room.old) (slots_in f room.old) s content next clean }
{
    if keeps {
        match content {
            Content::Report(report) => {
                return check_report(f, archive, room, s, report, next, clean);
            }
            _ => {
                return Ok(plain_words(content));
            }
        }
    }
    Err(Reason::Loss)
}

// Of what was found and what is found at a place, what has the lower number; of equal ones the first.
fn lowest(found: Option<Refused>, counted: Result<usize, Reason>, place: usize) -> Option<Refused>
    ensures { result ≡ lowest_of found counted place }
{
    let Err(reason) = counted else {
        return found;
    };
    let own = reason.at(place);
    let Some(earlier) = found else {
        return Some(own);
    };
    if own.number < earlier.number {
        return Some(own);
    }
    found
}

// What was found in all, once no record stopped the pass.
fn conclude(found: Option<Refused>, words: usize) -> Result<usize, Refused>
    ensures { result ≡ concluded found words }
{
    match found {
        Some(refused) => Err(refused),
        None => Ok(words),
    }
}

// Passes over the whole archive: the words that its items take without texts and threads, or what it is refused by.
pub fn count_all(f: Format, archive: &[u8], room: &mut [u32]) -> Result<usize, Refused>
    requires { FormatFits f × (opening_number f archive.now (table_words f) ≡ 0) × (4 * table_words f ≤ length room.old) × ((i : ℕ) → i < 4 * table_words f → get_or room.old i 0 ≡ 0) }
    ensures count_is { CountIs f archive.now result }
    ensures room_after { take (table_words f) room.new ≡ tables_of f archive.now }
    ensures slots_left { SlotsLeft f archive.now (drop (table_words f) room.new) }
    ensures room_len_unchanged { (length room.new ≡ length room.old) × (drop (4 * table_words f) room.new ≡ drop (4 * table_words f) room.old) }
{
    let stretch = tables::table_words(f);
    let mut s = contexts::opening_state();
    let mut found = None;
    let mut words = 0;
    // No `for`: a record says itself how far it reaches.
    while s.place < archive.len() {
        let place = s.place;
        let checked = losses::checked_record_at(f, archive, place);
        let record = checked.record;
        let content = record.content;
        let next = record.next;
        let state = match passes::follow(f, &mut room[..stretch], s, content, next) {
            Err(number) => return Err(Refused { number, place }),
            Ok(state) => state,
        };
        passes::renew(f, archive, &mut room[stretch..], s, content);
        let clean = found.is_none();
        let counted = check_record(f, archive, room, s, content, next, checked.keeps, clean);
        found = lowest(found, counted, place);
        words += counted.unwrap_or(0);
        s = state;
    }
    conclude(found, words)
}
