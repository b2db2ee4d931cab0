// Answers, arguments and states as numbers in lent words, and the state that numbers stand for. Functions that are called by `exports`
// put all their numbers, or none where the words are too few.
#![tactic(auto)]

ghost use Rattle.std.specs.Prelude.{◌≡◌, ◌+◌, ◌%◌, ◌^◌, ◌≤◌, length, Ok};
ghost use Rattle.words.specs.Stream.{overwritten};
ghost use Rattle.reader.specs.Numbers.{text_values, thread_values, referent_values, provider_values, scalar_value, value_values, event_values, log_values};
ghost use Rattle.blocks.specs.Block.{block, answer_numbers, asked_numbers, state_numbers, reply_numbers, given_state, put_count, put_numbers};

use arguments::Scalar;
use contexts::State;
use format::Refused;
use reader::{Answer, Reply};
use records::{Event, Log, Own};
use views::{ShownArgument, ShownReferent, ShownReport, ShownText, ShownThread, ShownValue};

// A text: which case it is, and what that holds.
fn text_values(t: ShownText) -> [u64; 3]
    ensures { result ≡ text_values t }
{
    match t {
        ShownText::At { place, length } => [1, place as u64, length as u64],
        ShownText::Unresolved { index } => [2, index as u64, 0],
    }
}

fn thread_values(t: ShownThread) -> [u64; 3]
    ensures { result ≡ thread_values t }
{
    match t {
        ShownThread::Words { process, thread } => [1, process, thread],
        ShownThread::Unresolved { index } => [2, index as u64, 0],
    }
}

// What a record refers to, a text or a thread.
fn referent_values(r: ShownReferent) -> [u64; 3]
    ensures { result ≡ referent_values r }
{
    match r {
        ShownReferent::Text(t) => text_values(t),
        ShownReferent::Thread(t) => thread_values(t),
    }
}

fn provider_values(p: Option<u32>) -> [u64; 2]
    ensures { result ≡ provider_values p }
{
    match p {
        None => [0, 0],
        Some(id) => [1, u64::from(id)],
    }
}

// The 64 bits of a value that is no text.
fn scalar_value(scalar: Scalar) -> u64
    ensures { result ≡ scalar_value scalar }
{
    match scalar {
        Scalar::Null => 0,
        Scalar::Signed32(v) => i64::from(v).cast_unsigned(),
        Scalar::Unsigned32(v) => u64::from(v),
        Scalar::Signed64(v) => v.cast_unsigned(),
        Scalar::Unsigned64(v) => v,
        Scalar::Double(v) => v,
        Scalar::Pointer(v) => v,
        Scalar::KernelObject(v) => v,
        Scalar::Boolean(v) => u64::from(v),
        Scalar::Unknown(_) => 0,
    }
}

// Four numbers, put at a place. Every block is put by these.
pub fn put_four(out: &mut [u64], at: usize, numbers: [u64; 4])
    requires { at + 4 ≤ length out.old }
    ensures { out.new ≡ overwritten out.old at numbers }
{
    out[at..at + 4].copy_from_slice(&numbers);
}

// A block of twenty with four values.
fn put_short(out: &mut [u64], values: [u64; 4])
    requires { 20 ≤ length out.old }
    ensures { out.new ≡ overwritten out.old 0 (block 20 values) }
{
    put_four(out, 0, values);
    out[4..20].fill(0);
}

// The block of an event.
fn put_event(out: &mut [u64], event: Event, report: ShownReport)
    requires { 20 ≤ length out.old }
    ensures { out.new ≡ overwritten out.old 0 (block 20 (event_values event report)) }
{
    let p = provider_values(report.provider);
    let a = referent_values(report.first);
    let b = referent_values(report.second);
    let c = referent_values(report.third);
    put_four(out, 0, [8, report.place as u64, p[0], p[1]]);
    put_four(
        out,
        4,
        [u64::from(event.variant), event.timestamp, report.rate, a[0]],
    );
    put_four(out, 8, [a[1], a[2], b[0], b[1]]);
    put_four(out, 12, [b[2], c[0], c[1], c[2]]);
    put_four(out, 16, [report.count as u64, report.last, 0, 0]);
}

// The block of a log.
fn put_log(out: &mut [u64], log: Log, report: ShownReport)
    requires { 20 ≤ length out.old }
    ensures { out.new ≡ overwritten out.old 0 (block 20 (log_values log report)) }
{
    let message = report.stream;
    let p = provider_values(report.provider);
    let a = referent_values(report.first);
    put_four(out, 0, [12, report.place as u64, p[0], p[1]]);
    put_four(out, 4, [log.timestamp, report.rate, a[0], a[1]]);
    put_four(
        out,
        8,
        [a[2], message.place as u64, message.length as u64, 0],
    );
    out[12..20].fill(0);
}

// The block of a record that refers to texts and threads, by its kind.
fn put_report(out: &mut [u64], report: ShownReport)
    requires { 20 ≤ length out.old }
    ensures { out.new ≡ overwritten out.old 0 (answer_numbers (Answer.Report report)) }
{
    match report.own {
        Own::Event(event) => put_event(out, event, report),
        Own::Log(log) => put_log(out, log, report),
    }
}

// The block of an answer.
fn put_answer(out: &mut [u64], answer: Answer)
    requires { 20 ≤ length out.old }
    ensures { out.new ≡ overwritten out.old 0 (answer_numbers answer) }
{
    match answer {
        Answer::End { number, place } => put_short(out, [1, u64::from(number), place as u64, 0]),
        Answer::Nothing => put_short(out, [2, 0, 0, 0]),
        Answer::Magic => put_short(out, [3, 0, 0, 0]),
        Answer::ProviderInfo { id, place, length } => {
            put_short(out, [4, u64::from(id), place as u64, length as u64])
        }
        Answer::Section { id } => put_short(out, [5, u64::from(id), 0, 0]),
        Answer::ProviderEvent { id, event } => {
            put_short(out, [6, u64::from(id), u64::from(event), 0])
        }
        Answer::Initialization { rate } => put_short(out, [7, rate, 0, 0]),
        Answer::Report(report) => put_report(out, report),
        Answer::Skipped { record_type, size } => {
            put_short(out, [9, u64::from(record_type), size, 0])
        }
    }
}

// The numbers of a state, behind an answer's.
fn put_state(out: &mut [u64], s: State)
    requires { 40 ≤ length out.old }
    ensures { out.new ≡ overwritten out.old 20 (state_numbers s) }
{
    let r = s.rates;
    let ids = s.ids;
    put_four(out, 20, [s.place as u64, r[0], r[1], r[2]]);
    put_four(out, 24, [r[3], r[4], r[5], r[6]]);
    put_four(out, 28, [r[7], r[8], ids[0].into(), ids[1].into()]);
    put_four(
        out,
        32,
        [ids[2].into(), ids[3].into(), ids[4].into(), ids[5].into()],
    );
    put_four(
        out,
        36,
        [
            ids[6].into(),
            ids[7].into(),
            s.count as u64,
            s.current as u64,
        ],
    );
}

// A reply's numbers, where the words hold them.
pub fn put_reply(out: &mut [u64], reply: Reply) -> u64
    ensures value { result ≡ put_count (length out.old) 40 }
    ensures out_after { out.new ≡ put_numbers out.old (reply_numbers reply) }
{
    if out.len() < 40 {
        return 0;
    }
    put_answer(out, reply.answer);
    put_state(out, reply.state);
    40
}

// The numbers of an argument's value, behind those of its name.
fn put_value(out: &mut [u64], value: ShownValue)
    requires { 20 ≤ length out.old }
    ensures { out.new ≡ overwritten out.old 4 (value_values value) }
{
    match value {
        ShownValue::Scalar(scalar) => {
            put_four(out, 4, [scalar.argument_type(), scalar_value(scalar), 0, 0])
        }
        ShownValue::Text(t) => {
            let text = text_values(t);
            put_four(out, 4, [6, text[0], text[1], text[2]])
        }
    }
}

// The block of an argument.
fn put_argument(out: &mut [u64], argument: ShownArgument)
    requires { 20 ≤ length out.old }
    ensures { out.new ≡ overwritten out.old 0 (asked_numbers (Ok argument)) }
{
    let name = text_values(argument.name);
    put_four(out, 0, [10, name[0], name[1], name[2]]);
    put_value(out, argument.value);
    out[8..20].fill(0);
}

// The block of what is answered for an argument, where the words hold it.
pub fn put_asked(out: &mut [u64], asked: Result<ShownArgument, Refused>) -> u64
    ensures value { result ≡ put_count (length out.old) 20 }
    ensures out_after { out.new ≡ put_numbers out.old (asked_numbers asked) }
{
    if out.len() < 20 {
        return 0;
    }
    match asked {
        Err(refused) => put_short(out, [1, u64::from(refused.number), refused.place as u64, 0]),
        Ok(argument) => put_argument(out, argument),
    }
    20
}

// The 32 bits of an id.
fn id_of(number: u64) -> u32
    ensures { result ≡ number % 2 ^ 32 }
{
    (number % 0x1_0000_0000) as u32
}

// The state that twenty numbers stand for. A caller that steps over an archive always hands over so many: none is looked for.
fn whole_state(numbers: &[u64]) -> State
    requires { 20 ≤ length numbers.now }
    ensures { result ≡ given_state numbers.now }
{
    State {
        place: numbers[0] as usize,
        rates: [
            numbers[1], numbers[2], numbers[3], numbers[4], numbers[5], numbers[6], numbers[7],
            numbers[8], numbers[9],
        ],
        ids: [
            id_of(numbers[10]),
            id_of(numbers[11]),
            id_of(numbers[12]),
            id_of(numbers[13]),
            id_of(numbers[14]),
            id_of(numbers[15]),
            id_of(numbers[16]),
            id_of(numbers[17]),
        ],
        count: numbers[18] as usize,
        current: numbers[19] as usize,
    }
}

// The state that numbers stand for. Those that are missing are 0.
pub fn given_state(numbers: &[u64]) -> State
    ensures { result ≡ given_state numbers.now }
{
    if numbers.len() < 20 {
        let mut twenty = [0; 20];
        twenty[..numbers.len()].copy_from_slice(numbers);
        return whole_state(&twenty);
    }
    whole_state(numbers)
}
