// The listing of document 01, put into a lent buffer behind what was put before. What does not fit is left out. Nothing here asks
// anything of its caller.
#![tactic(auto)]

ghost use Rattle.std.specs.Prelude.{◌≡◌};
ghost use Rattle.format.specs.Limits.{small_format};
ghost use Rattle.reader.specs.Step.{step_reply, step_tables};
ghost use Rattle.lines.specs.Put.{Adds};
ghost use Rattle.listings.specs.Listing.{argument_lines, answer_arguments, is_end, next_state, step_lines, lines_from, tables_from, steps_of, listing, list_tables, input_listing, input_tables};

use contexts::State;
use lines::Cursor;
use reader::Answer;

// The lines of so many arguments of the record at a place, asked for in the state right after it.
fn put_arguments(
    out: &mut Cursor,
    archive: &[u8],
    state: State,
    tables: &[u32],
    place: usize,
    count: usize,
)
    ensures { Adds out.old (argument_lines small_format archive.now tables.now state place 0 count) out.new }
{
    for number in 0..count {
        let asked = reader::argument(archive, state, tables, place, number);
        item_lines::put_asked(out, archive, asked);
    }
}

// The lines behind that of an answer: a report's arguments.
fn put_answer_arguments(
    out: &mut Cursor,
    archive: &[u8],
    state: State,
    tables: &[u32],
    answer: Answer,
)
    ensures { Adds out.old (answer_arguments small_format archive.now tables.now state answer) out.new }
{
    if let Answer::Report(report) = answer {
        put_arguments(out, archive, state, tables, report.place, report.count);
    }
}

// Whether an answer is the last.
fn is_end(answer: Answer) -> bool
    ensures { result ≡ is_end answer }
{
    matches!(answer, Answer::End { .. })
}

// The lines of one record, and the state behind it unless it is the last.
fn list_record(out: &mut Cursor, archive: &[u8], state: State, tables: &mut [u32]) -> Option<State>
    ensures puts { Adds out.old (step_lines small_format archive.now tables.old state) out.new }
    ensures value { result ≡ next_state (step_reply small_format archive.now tables.old state) }
    ensures tables_after { tables.new ≡ step_tables small_format archive.now tables.old state }
{
    let reply = reader::step(archive, state, tables);
    item_lines::put_answer(out, archive, reply.answer);
    put_answer_arguments(out, archive, reply.state, tables, reply.answer);
    if is_end(reply.answer) {
        return None;
    }
    Some(reply.state)
}

// The lines from a state to the end. A record takes a word or more, so no reading uses these turns up.
fn list_records(out: &mut Cursor, archive: &[u8], state: State, tables: &mut [u32])
    ensures puts { Adds out.old (lines_from small_format archive.now (steps_of archive.now) state tables.old) out.new }
    ensures tables_after { tables.new ≡ tables_from small_format archive.now (steps_of archive.now) state tables.old }
{
    let mut state = state;
    for _ in 0..archive.len() / 8 + 1 {
        let Some(next) = list_record(out, archive, state, tables) else {
            return;
        };
        state = next;
    }
}

// The listing of an archive.
pub fn list(out: &mut Cursor, archive: &[u8], tables: &mut [u32])
    ensures puts { Adds out.old (listing small_format archive.now tables.old) out.new }
    ensures tables_after { tables.new ≡ list_tables small_format archive.now tables.old }
{
    out.put_bytes(b"trace 1\n");
    let opened = reader::open(archive, tables);
    if is_end(opened.answer) {
        item_lines::put_answer(out, archive, opened.answer);
        return;
    }
    list_records(out, archive, opened.state, tables);
}

// The listing of an input, of which over 32,768 bytes are refused by their number alone.
pub fn list_input(out: &mut Cursor, input: &[u8], tables: &mut [u32])
    ensures puts { Adds out.old (input_listing small_format input.now tables.old) out.new }
    ensures tables_after { tables.new ≡ input_tables small_format input.now tables.old }
{
    if 32768 < input.len() {
        out.put_bytes(b"trace 1\n");
        item_lines::put_end(out, 2, 0);
        return;
    }
    list(out, input, tables);
}
