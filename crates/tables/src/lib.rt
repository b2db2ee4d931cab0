// The reading tables: which records they name, and what a reference stands for. An entry is trusted for nothing:
// the record that it names is read again each time.
#![tactic(auto)]

ghost use Rattle.std.specs.Prelude.{◌≡◌, ◌+◌, ◌*◌, ◌^◌, ◌<◌, ◌≤◌, length};
ghost use Rattle.tables.specs.Table.{table_words, highest_of, position, cleared, entry_at, resolved};
ghost use Rattle.tables.specs.Models.Entries.{FormatFits, header_entry};

use format::{Format, Reference};

// What a reference stands for; bad where its entry does not belong.
#[derive(Clone, Copy)]
pub enum Resolved {
    Bad,
    Known { place: usize, length: usize },
    Unresolved { index: usize },
}

// What is registered in a context before the place `until`: the reading tables, each set entry of which names a record of the archive.
#[derive(Clone, Copy)]
pub struct Registrations<'a> {
    pub format: Format,
    pub archive: &'a [u8],
    pub words: &'a [u32],
    pub context: usize,
    pub until: usize,
    ghost addressed: { FormatFits format },
    ghost bounded: { length archive.now < 2 ^ 62 },
    ghost lent: { table_words format ≤ length words.now },
    ghost one_of_nine: { context ≤ 8 },
}

// How many words the tables take.
pub fn table_words(f: Format) -> usize
    requires { FormatFits f }
    ensures { result ≡ table_words f }
{
    9 * (f.highest as usize + 257)
}

// The highest index of a table.
pub fn highest_of(f: Format, table: u64) -> usize
    ensures { result ≡ highest_of f table }
{
    if table == 3 {
        return 255;
    }
    f.highest as usize
}

// The position of an entry.
pub fn position_of(f: Format, context: usize, table: u64, index: usize) -> usize
    requires { FormatFits f × (context ≤ 8) × (index ≤ highest_of f table) }
    ensures { result ≡ position f context table index }
{
    let highest = f.highest as usize;
    let start = context * (highest + 257);
    if table == 3 {
        return start + (highest + 1) + index;
    }
    start + index
}

// The first n words become 0.
pub fn clear(tables: &mut [u32], n: usize)
    requires { n ≤ length tables.old }
    ensures { tables.new ≡ cleared n tables.old }
{
    tables[..n].fill(0);
}

// What the header of a record of this table at the place `entry` stands for where this index is wanted. Both tables are one
// way through it, which keeps a lookup small enough to be put where it is made. The hint stays: where it is called, a step
// takes 5 to 10 % longer.
#[inline(always)]
fn header_entry(f: Format, table: u64, header: u64, index: usize, entry: usize) -> Resolved
    requires { entry < 2 ^ 32 }
    ensures { result ≡ header_entry f table header index entry }
{
    let mut own = words::field(header, 16, 30) as usize;
    let mut length = words::field(header, 32, 46) as usize;
    let mut longest = f.longest as usize;
    if table == 3 {
        own = words::field(header, 16, 23) as usize;
        length = 16;
        longest = 16;
    }
    if own != index {
        return Resolved::Bad;
    }
    if longest < length {
        return Resolved::Bad;
    }
    if words::field(header, 4, 15) as usize <= words::stream_words(length) {
        return Resolved::Bad;
    }
    Resolved::Known {
        place: entry + 8,
        length,
    }
}

// What a set entry stands for: the registration of this table and index at its place, which ends at or before `until`.
// Its header says it all; only the tables of texts and threads have entries.
fn entry_at(
    f: Format,
    archive: &[u8],
    table: u64,
    index: usize,
    entry: usize,
    until: usize,
) -> Resolved
    requires { (entry < 2 ^ 32) × (index ≤ highest_of f table) }
    ensures { result ≡ entry_at f archive.now table index entry until }
{
    if entry % 8 != 0 {
        return Resolved::Bad;
    }
    if archive.len() < entry + 8 {
        return Resolved::Bad;
    }
    let header = words::word(f.order, archive, entry);
    if words::field(header, 0, 3) != table {
        return Resolved::Bad;
    }
    let end = entry + 8 * words::field(header, 4, 15) as usize;
    if until < end {
        return Resolved::Bad;
    }
    if archive.len() < end {
        return Resolved::Bad;
    }
    if table / 2 != 1 {
        return Resolved::Bad;
    }
    if index == 0 {
        return Resolved::Bad;
    }
    header_entry(f, table, header, index, entry)
}

impl<'a> Registrations<'a> {
    // What a reference into the table of this number stands for. The number is a word, not an enum: this answers for any, and a table
    // that is neither 2 nor 3 has no good entry.
    pub fn resolve(&self, table: u64, reference: Reference) -> Resolved
        ensures { result ≡ resolved self.now.format self.now.archive.now self.now.words.now self.now.context table self.now.until reference }
    {
        match reference {
            Reference::Inline { place, length } => Resolved::Known { place, length },
            Reference::Index(index) => {
                if highest_of(self.format, table) < index {
                    return Resolved::Unresolved { index };
                }
                let at = position_of(self.format, self.context, table, index);
                let entry = self.words[at] as usize;
                if entry == 0 {
                    return Resolved::Unresolved { index };
                }
                entry_at(self.format, self.archive, table, index, entry, self.until)
            }
        }
    }
}
