// Records, written into a lent output one behind the other.
#![tactic(auto)]

ghost use Rattle.std.specs.Prelude.{◌≡◌, [], ◌∷◌, ◌+◌, ◌*◌, ◌^◌, ◌<◌, ◌≤◌, length};
ghost use Rattle.words.specs.Word.{word_bytes};
ghost use Rattle.words.specs.Stream.{stream_words, padded, magic as magic_bytes};
ghost use Rattle.records.specs.Item.{thread as thread_of, provider_info, section, provider_event, initialization, event_fields, log_fields, own_layout};
ghost use Rattle.encoding.specs.Encoded.{reference_of, words_bytes, part_bytes, string_record, thread_record};
ghost use Rattle.encoding.specs.Models.Output.{Holds, Writes, Heads};
ghost use Rattle.encoding.specs.Models.Part.{plain_record, text_part, text_bytes, referent_reference, thread_part, referent_part, FieldsFit, header_word, report_header};

use format::Format;
use records::{Event, Own};

// A lent output, the format of its words, and the place in it from which on is written.
#[derive(Drop)]
pub struct Output<'a> {
    pub format: Format,
    pub buffer: &'a mut [u8],
    pub place: usize,
}

// The reference of a text that is written by its index, or inline where that is 0.
pub fn text_reference(index: usize, bytes: &[u8]) -> u64
    ensures { result ≡ reference_of (text_part index bytes.now) }
{
    if index != 0 {
        return index as u64;
    }
    if bytes.len() == 0 {
        return 0;
    }
    0x8000 + bytes.len() as u64
}

// The words that such a text takes in a body.
pub fn text_words(index: usize, bytes: &[u8]) -> usize
    ensures { result * 8 ≡ length (text_bytes index bytes.now) }
{
    if index != 0 {
        return 0;
    }
    words::stream_words(bytes.len())
}

// The reference of a text or a thread, by its table, that is written by its index, or inline where that is 0.
pub fn referent_reference(table: u64, index: usize, bytes: &[u8]) -> u64
    ensures { result ≡ referent_reference table index bytes.now }
{
    if table == 3 {
        return index as u64;
    }
    text_reference(index, bytes)
}

// The header of an event of this size in words.
fn event_header(event: Event, size: usize, count: usize, first: u64, second: u64, third: u64) -> u64
    requires { (size < 2 ^ 12) × FieldsFit (event_fields event.variant count first second third) }
    ensures { result ≡ header_word 4 size (event_fields event.variant count first second third) }
{
    let with_variant = words::with_field(format::header(4, size), 16, 19, event.variant as u64);
    let with_count = words::with_field(with_variant, 20, 23, count as u64);
    let with_first = words::with_field(with_count, 24, 31, first);
    let with_second = words::with_field(with_first, 32, 47, second);
    words::with_field(with_second, 48, 63, third)
}

// The header of a log of this size in words.
fn log_header(size: usize, thread: u64, long: usize) -> u64
    requires { (size < 2 ^ 12) × FieldsFit (log_fields long thread) }
    ensures { result ≡ header_word 9 size (log_fields long thread) }
{
    let with_length = words::with_field(format::header(9, size), 16, 30, long as u64);
    words::with_field(with_length, 32, 39, thread)
}

// The header of a record that refers to texts and threads, of this size in words: from what is particular to its kind, its count of arguments, its
// three references and the length of its stream. An event has no stream, a log has one reference and no arguments.
fn report_header(
    own: Own,
    size: usize,
    count: usize,
    first: u64,
    second: u64,
    third: u64,
    long: usize,
) -> u64
    requires { (size < 2 ^ 12) × FieldsFit ((own_layout own).header count first second third long) }
    ensures { result ≡ header_word (own_layout own).type size ((own_layout own).header count first second third long) }
{
    match own {
        Own::Event(event) => event_header(event, size, count, first, second, third),
        Own::Log(_) => log_header(size, first, long),
    }
}

impl<'a> Output<'a> {
    // A word.
    pub fn put_word(&mut self, word: u64)
        requires { Holds self.old (λ f. word_bytes f.order word) }
        ensures { Writes self.old (λ f. word_bytes f.order word) self.new }
    {
        words::put_word(self.format.order, self.buffer, self.place, word);
        self.place += 8;
    }

    // A stream that is no reference.
    pub fn put_stream(&mut self, bytes: &[u8])
        requires { Holds self.old (λ f. padded bytes.now) }
        ensures { Writes self.old (λ f. padded bytes.now) self.new }
    {
        words::put_stream(self.buffer, self.place, bytes);
        self.place += words::stream_words(bytes.len()) * 8;
    }

    // The registration of a text.
    pub fn put_string_record(&mut self, index: usize, bytes: &[u8])
        requires { (index < 2 ^ 15) × (1 + stream_words (length bytes.now) < 2 ^ 12) × Holds self.old (λ f. string_record f index bytes.now) }
        ensures { Writes self.old (λ f. string_record f index bytes.now) self.new }
    {
        let size = words::stream_words(bytes.len());
        let indexed = words::with_field(format::header(2, 1 + size), 16, 30, index as u64);
        self.put_word(words::with_field(indexed, 32, 46, bytes.len() as u64));
        self.put_stream(bytes);
    }

    // The registration of a thread.
    pub fn put_thread_record(&mut self, index: usize, process: u64, thread: u64)
        requires { (index < 2 ^ 8) × Holds self.old (λ f. thread_record f index (thread_of process thread)) }
        ensures { Writes self.old (λ f. thread_record f index (thread_of process thread)) self.new }
    {
        self.put_word(words::with_field(format::header(3, 3), 16, 23, index as u64));
        self.put_word(process);
        self.put_word(thread);
    }

    // The magic.
    pub fn put_magic(&mut self)
        requires { Holds self.old (λ f. magic_bytes) }
        ensures { Writes self.old (λ f. magic_bytes) self.new }
    {
        self.put_stream(b"\x10\x00\x04\x46\x78\x54\x16\x00");
    }

    // A provider's id and name.
    pub fn put_provider_info(&mut self, id: u32, name: &[u8])
        requires { (length name.now < 2 ^ 8) × Holds self.old (λ f. plain_record f (provider_info id name.now)) }
        ensures { Writes self.old (λ f. plain_record f (provider_info id name.now)) self.new }
    {
        let size = words::stream_words(name.len());
        let metadata = words::with_field(format::header(0, 1 + size), 16, 19, 1);
        let named = words::with_field(metadata, 20, 51, id as u64);
        self.put_word(words::with_field(named, 52, 59, name.len() as u64));
        self.put_stream(name);
    }

    // The start of a provider's section.
    pub fn put_section(&mut self, id: u32)
        requires { Holds self.old (λ f. plain_record f (section id)) }
        ensures { Writes self.old (λ f. plain_record f (section id)) self.new }
    {
        let metadata = words::with_field(format::header(0, 1), 16, 19, 2);
        self.put_word(words::with_field(metadata, 20, 51, id as u64));
    }

    // What a provider reports of itself.
    pub fn put_provider_event(&mut self, id: u32, event: u8)
        requires { (event < 2 ^ 4) × Holds self.old (λ f. plain_record f (provider_event id event)) }
        ensures { Writes self.old (λ f. plain_record f (provider_event id event)) self.new }
    {
        let metadata = words::with_field(format::header(0, 1), 16, 19, 3);
        let named = words::with_field(metadata, 20, 51, id as u64);
        self.put_word(words::with_field(named, 52, 55, event as u64));
    }

    // The rate from here on.
    pub fn put_initialization(&mut self, rate: u64)
        requires { Holds self.old (λ f. plain_record f (initialization rate)) }
        ensures { Writes self.old (λ f. plain_record f (initialization rate)) self.new }
    {
        self.put_word(format::header(1, 2));
        self.put_word(rate);
    }

    // A text in a body, that is written by its index, or inline where that is 0.
    pub fn put_text(&mut self, index: usize, bytes: &[u8])
        requires { Holds self.old (λ f. text_bytes index bytes.now) }
        ensures { Writes self.old (λ f. text_bytes index bytes.now) self.new }
    {
        if index == 0 {
            self.put_stream(bytes);
        }
    }

    // Such a thread; its reference is the index.
    pub fn put_thread(&mut self, index: usize, process: u64, thread: u64)
        requires { Holds self.old (λ f. part_bytes f (thread_part index (thread_of process thread))) }
        ensures { Writes self.old (λ f. part_bytes f (thread_part index (thread_of process thread))) self.new }
    {
        if index == 0 {
            self.put_word(process);
            self.put_word(thread);
        }
    }

    // Such a text or thread, by its table.
    pub fn put_referent(&mut self, table: u64, index: usize, bytes: &[u8])
        requires { (table ≡ 3 → index ≡ 0 → 16 ≤ length bytes.now) × Holds self.old (λ f. part_bytes f (referent_part f table index bytes.now)) }
        ensures { Writes self.old (λ f. part_bytes f (referent_part f table index bytes.now)) self.new }
    {
        if table != 3 {
            return self.put_text(index, bytes);
        }
        if index != 0 {
            return;
        }
        self.put_thread(
            0,
            words::word(self.format.order, bytes, 0),
            words::word(self.format.order, bytes, 8),
        );
    }

    // The header of a record that refers to texts and threads, written at an earlier place, where a word was left out.
    pub fn put_report_header(
        &mut self,
        start: usize,
        own: Own,
        size: usize,
        count: usize,
        first: u64,
        second: u64,
        third: u64,
        long: usize,
    )
        requires { (size < 2 ^ 12) × FieldsFit ((own_layout own).header count first second third long) × (start + 8 ≤ length self.old.buffer.now) }
        ensures { Heads self.old start (λ f. report_header f own size count first second third long) self.new }
    {
        let word = report_header(own, size, count, first, second, third, long);
        words::put_word(self.format.order, self.buffer, start, word);
    }

    // The words of its own that such a record has before its references: an event and a log have their timestamp.
    pub fn put_own_words(&mut self, own: Own)
        requires { Holds self.old (λ f. words_bytes f (own_layout own).words) }
        ensures { Writes self.old (λ f. words_bytes f (own_layout own).words) self.new }
    {
        match own {
            Own::Event(event) => self.put_word(event.timestamp),
            Own::Log(log) => self.put_word(log.timestamp),
        }
    }
}
