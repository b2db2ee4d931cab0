// Reading a trace: opening, stepping, asking for an argument and for a text. Nothing here asks anything of its caller.
#![tactic(auto)]

ghost use Rattle.std.specs.Prelude.{◌≡◌, ◌+◌, ◌^◌, ◌<◌, ◌≤◌, true, length};
ghost use Rattle.words.specs.Stream.{part_of};
ghost use Rattle.format.specs.Limits.{small_format, Checks};
ghost use Rattle.tables.specs.Table.{table_words};
ghost use Rattle.tables.specs.Models.Entries.{FormatFits};
ghost use Rattle.contexts.specs.Context.{belongs_to};
ghost use Rattle.records.specs.Record.{content_of};
ghost use Rattle.records.specs.Effect.{effect_of};
ghost use Rattle.effects.specs.Models.Bounds.{EffectFits};
ghost use Rattle.effects.specs.Follow.{changed};
ghost use Rattle.views.specs.Models.Bounds.{StandsWhole};
ghost use Rattle.views.specs.Models.Numbered.{argument_in};
ghost use Rattle.reader.specs.Models.Replies.{seen_reply, asked_in};
ghost use Rattle.reader.specs.Step.{opening_number, stopping, plain_answer, effect_decision, content_decision, place_decision, reply_of, open_reply, open_tables, step_reply, step_tables};
ghost use Rattle.reader.specs.Ask.{shown_for, asked_place, argument_reply};

use arguments::{Argument, Value};
use contexts::State;
use format::{Format, Reason, Refused};
use records::Content;
use tables::Registrations;
use views::{ShownArgument, ShownReport, ShownValue};

// What a call answers: document 01's number and place where it ends or is refused, nothing to show, or an item. The number is no
// `Reason`, since 0 ends a trace, and `blocks::put_reply` answers for any number.
#[derive(Clone, Copy)]
pub enum Answer {
    End {
        number: u8,
        place: usize,
    },
    Nothing,
    Magic,
    ProviderInfo {
        id: u32,
        place: usize,
        length: usize,
    },
    Section {
        id: u32,
    },
    ProviderEvent {
        id: u32,
        event: u8,
    },
    Initialization {
        rate: u64,
    },
    Report(ShownReport),
    Skipped {
        record_type: u8,
        size: u64,
    },
}

// An answer with the state to go on from.
#[derive(Clone, Copy)]
pub struct Reply {
    pub answer: Answer,
    pub state: State,
}

// Whether archive and tables are taken.
fn check_opening(f: Format, archive: &[u8], lent: usize) -> Result<(), Refused>
    requires { FormatFits f }
    ensures { Checks (opening_number f archive.now lent) result }
{
    let short = Reason::ShortTables.number();
    format::check_archive(archive, short, tables::table_words(f), lent)
}

// What a record that refers to nothing is shown as.
fn plain_answer(content: Content) -> Answer
    ensures { result ≡ plain_answer content }
{
    match content {
        Content::Magic => Answer::Magic,
        Content::ProviderInfo { id, place, length } => Answer::ProviderInfo { id, place, length },
        Content::Section { id } => Answer::Section { id },
        Content::ProviderEvent { id, event } => Answer::ProviderEvent { id, event },
        Content::Initialization { rate } => Answer::Initialization { rate },
        Content::Skipped { record_type, size } => Answer::Skipped { record_type, size },
        Content::Report(_) => Answer::Nothing,
        Content::Refused(_) => Answer::Nothing,
        Content::String {
            index: _,
            place: _,
            length: _,
        } => Answer::Nothing,
        Content::Thread { index: _, place: _ } => Answer::Nothing,
        Content::Ignored => Answer::Nothing,
    }
}

// A step that ends or is refused.
fn stop(s: State, number: u8, place: usize) -> Reply
    ensures { result ≡ reply_of (stopping s number place) }
{
    Reply {
        answer: Answer::End { number, place },
        state: s,
    }
}

// A step at a record that refers to texts and threads, ends at `next` and is seen as this.
fn show_seen(s: State, seen: Result<ShownReport, u8>, next: usize) -> Reply
    ensures { result ≡ seen_reply s seen next }
{
    match seen {
        Err(number) => stop(s, number, s.place),
        Ok(report) => Reply {
            answer: Answer::Report(report),
            state: contexts::move_to(s, next),
        },
    }
}

// A step at a record that refers to nothing, ends at `next` and in which this was read.
fn step_plain(f: Format, tables: &mut [u32], s: State, content: Content, next: usize) -> Reply
    requires { FormatFits f × (s.count ≤ 8) × (s.current ≤ 8) × (s.place < 2 ^ 32) × EffectFits f (effect_of content) }
    ensures value { result ≡ reply_of (effect_decision f s (effect_of content) next (plain_answer content)) }
    ensures tables_after { tables.new ≡ changed tables.old (effect_decision f s (effect_of content) next (plain_answer content)).change }
{
    let effect = effects::effect_of(content);
    match effects::follow(s, effect, next) {
        Err(number) => stop(s, number, s.place),
        Ok(state) => {
            effects::apply(tables, effects::change_of(f, s, effect));
            Reply {
                answer: plain_answer(content),
                state,
            }
        }
    }
}

// A step at the record that is `source`, whole.
fn step_record(f: Format, archive: &[u8], tables: &mut [u32], s: State, source: &[u8]) -> Reply
    requires { FormatFits f × (length archive.now < 2 ^ 31) × (table_words f ≤ length tables.old) × (s.count ≤ 8) × (s.current ≤ 8) × StandsWhole f archive.now s.place source.now (content_of f source.now s.place) }
    ensures value { result ≡ reply_of (content_decision f archive.now tables.old s (content_of f source.now s.place) (s.place + length source.now)) }
    ensures tables_after { tables.new ≡ changed tables.old (content_decision f archive.now tables.old s (content_of f source.now s.place) (s.place + length source.now)).change }
{
    let order = f.order;
    let place = s.place;
    let next = place + source.len();
    let layout = records::layout_of(words::word(order, source, 0));
    if layout.read {
        let registrations = Registrations {
            format: f,
            archive,
            words: tables,
            context: s.current,
            until: place,
        };
        let provider = contexts::provider_of(s);
        let seen = views::see_report(&registrations, provider, contexts::rate_of(s), source);
        return show_seen(s, seen, next);
    }
    step_plain(f, tables, s, records::content_of(f, source, place), next)
}

// A step from a state that belongs.
fn step_place(f: Format, archive: &[u8], tables: &mut [u32], s: State) -> Reply
    requires { FormatFits f × (length archive.now < 2 ^ 31) × (table_words f ≤ length tables.old) × (belongs_to s (length archive.now) ≡ true) }
    ensures value { result ≡ reply_of (place_decision f archive.now tables.old s) }
    ensures tables_after { tables.new ≡ changed tables.old (place_decision f archive.now tables.old s).change }
{
    let place = s.place;
    if place == archive.len() {
        return stop(s, 0, place);
    }
    let rest = &archive[place..];
    match format::extent_of(f, rest) {
        Err(reason) => stop(s, reason.number(), place),
        Ok(size) => step_record(f, archive, tables, s, &rest[..size]),
    }
}

// Opens an archive: the tables are cleared, and the state stands at its start.
pub fn open(archive: &[u8], tables: &mut [u32]) -> Reply
    ensures value { result ≡ open_reply small_format archive.now (length tables.old) }
    ensures tables_after { tables.new ≡ open_tables small_format archive.now tables.old }
{
    let f = format::small_format();
    let state = contexts::opening_state();
    if let Err(refused) = check_opening(f, archive, tables.len()) {
        return Reply {
            answer: Answer::End {
                number: refused.number,
                place: 0,
            },
            state,
        };
    }
    tables::clear(tables, tables::table_words(f));
    Reply {
        answer: Answer::Nothing,
        state,
    }
}

// Reads one record: its item or nothing, and the state to go on from.
pub fn step(archive: &[u8], state: State, tables: &mut [u32]) -> Reply
    ensures value { result ≡ step_reply small_format archive.now tables.old state }
    ensures tables_after { tables.new ≡ step_tables small_format archive.now tables.old state }
{
    let f = format::small_format();
    if let Err(refused) = check_opening(f, archive, tables.len()) {
        return stop(state, refused.number, 0);
    }
    if contexts::belongs(state, archive.len()) {
        return step_place(f, archive, tables, state);
    }
    stop(state, 4, state.place)
}

// The argument as it is shown, or number 4 where an entry does not belong.
fn show_argument(
    registrations: &Registrations,
    argument: Argument,
) -> Result<ShownArgument, Refused>
    ensures { result ≡ shown_for registrations.now.format registrations.now.archive.now registrations.now.words.now registrations.now.context registrations.now.until argument }
{
    let name = argument.name;
    let value = argument.value;
    let foreign = Reason::ForeignState.at(registrations.until);
    let named = registrations.resolve(2, name);
    if views::is_bad(named) {
        return Err(foreign);
    }
    match value {
        Value::Scalar(scalar) => Ok(ShownArgument {
            name: views::shown_text(named),
            value: ShownValue::Scalar(scalar),
        }),
        Value::Text(reference) => {
            let held = registrations.resolve(2, reference);
            if views::is_bad(held) {
                return Err(foreign);
            }
            Ok(ShownArgument {
                name: views::shown_text(named),
                value: ShownValue::Text(views::shown_text(held)),
            })
        }
    }
}

// The argument of this number of the record that is `source`, whole, at `at`, as it is shown by what is registered.
fn ask_report(
    registrations: &Registrations,
    source: &[u8],
    at: usize,
    number: usize,
) -> Result<ShownArgument, Refused>
    requires { (8 ≤ length source.now) × (at + length source.now < 2 ^ 62) }
    ensures { result ≡ asked_in registrations.now.format registrations.now.archive.now registrations.now.words.now registrations.now.context registrations.now.until (argument_in registrations.now.format source.now at (content_of registrations.now.format source.now at) number) }
{
    match views::find_argument(registrations.format, source, at, number) {
        Err(_) => Err(Reason::ForeignState.at(registrations.until)),
        Ok(found) => show_argument(registrations, found.argument),
    }
}

// The argument of this number of the event at a place.
fn ask_place(
    f: Format,
    archive: &[u8],
    tables: &[u32],
    s: State,
    at: usize,
    number: usize,
) -> Result<ShownArgument, Refused>
    requires { FormatFits f × (length archive.now < 2 ^ 31) × (table_words f ≤ length tables.now) × (belongs_to s (length archive.now) ≡ true) }
    ensures { result ≡ asked_place f archive.now tables.now s at number }
{
    let place = s.place;
    let foreign = Reason::ForeignState.at(place);
    if at % 8 != 0 {
        return Err(foreign);
    }
    if archive.len() < at {
        return Err(foreign);
    }
    let rest = &archive[at..];
    match format::extent_of(f, rest) {
        Err(_) => Err(foreign),
        Ok(size) => {
            if at + size != place {
                return Err(foreign);
            }
            let registrations = Registrations {
                format: f,
                archive,
                words: tables,
                context: s.current,
                until: place,
            };
            ask_report(&registrations, &rest[..size], at, number)
        }
    }
}

// The argument of this number, from 0, of the event at a place, in the state right after that event.
pub fn argument(
    archive: &[u8],
    state: State,
    tables: &[u32],
    event: usize,
    number: usize,
) -> Result<ShownArgument, Refused>
    ensures { result ≡ argument_reply small_format archive.now tables.now state event number }
{
    let f = format::small_format();
    check_opening(f, archive, tables.len())?;
    if contexts::belongs(state, archive.len()) {
        return ask_place(f, archive, tables, state, event, number);
    }
    Err(Reason::ForeignState.at(state.place))
}

// The part of the archive that a text stands in, or the empty part where that is not inside the archive.
pub fn text(archive: &[u8], place: usize, length: usize) -> &[u8]
    ensures { result.now ≡ part_of archive.now place length }
{
    words::part(archive, place, length)
}
