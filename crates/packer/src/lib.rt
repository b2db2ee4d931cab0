// Repacking: the shortest archive that reads as the same list of items. Nothing here asks anything of its caller.
#![tactic(auto)]

ghost use Rattle.std.specs.Prelude.{◌≡◌, ℕ, ◌*◌, ◌<◌, ◌≤◌, length, drop, get_or};
ghost use Rattle.std.proofs.Math.Option.{none};
ghost use Rattle.format.specs.Limits.{small_format, Checks};
ghost use Rattle.tables.specs.Table.{table_words};
ghost use Rattle.tables.specs.Models.Entries.{FormatFits};
ghost use Rattle.reader.specs.Step.{opening_number};
ghost use Rattle.rule.specs.Rule.{uses_all, rule as ruleOf};
ghost use Rattle.rule.specs.Refusal.{run_of, refusal_of, items_of, written_length};
ghost use Rattle.tally.specs.Models.Tally.{Tallies};
ghost use Rattle.passes.specs.Models.Codes.{codes, last_of};
ghost use Rattle.packer.specs.Pack.{room_words, packing_number, written_reply, passes_reply, pack_reply, pack_room, output_of, pack_output, Shortest};

use format::{Format, Reason, Refused};

// Whether archive and room are taken, before anything is read.
fn check_packing(f: Format, archive: &[u8], lent: usize) -> Result<(), Refused>
    requires { FormatFits f }
    ensures { Checks (packing_number f archive.now lent) result }
{
    let short = Reason::ShortRoom.number();
    format::check_archive(archive, short, 4 * tables::table_words(f), lent)
}

// The bytes are written, where the output holds them: how many, or the refusal. What the first pass remembered of its tables is forgotten with them.
fn write(
    f: Format,
    archive: &[u8],
    room: &mut [u32],
    output: &mut [u8],
    long: usize,
) -> Result<usize, Refused>
    requires f_value { (f ≡ small_format) × (opening_number f archive.now (table_words f) ≡ 0) × (refusal_of f (run_of f archive.now) ≡ none) × (long ≡ written_length f archive.now) }
    requires f_in_bounds { (room_words f ≤ length room.old) × Tallies archive.now (table_words f) (drop (table_words f) room.old) (codes f (last_of f archive.now) (uses_all (items_of (run_of f archive.now)))) }
    ensures value { result ≡ written_reply (length output.old) long }
    ensures output_after { output.new ≡ output_of (written_reply (length output.old) long) output.old (ruleOf f (items_of (run_of f archive.now))) }
    ensures room_len_unchanged { (length room.new ≡ length room.old) × (drop (room_words f) room.new ≡ drop (room_words f) room.old) }
{
    if output.len() < long {
        return Err(Reason::ShortOutput.at(0));
    }
    let stretch = tables::table_words(f);
    tables::clear(&mut room[3 * stretch..], stretch);
    indexing::choose(&mut room[stretch..], stretch);
    tables::clear(room, stretch);
    second_pass::write_all(f, archive, room, output);
    Ok(long)
}

// Both passes, in a room that is clear.
fn pack(f: Format, archive: &[u8], room: &mut [u32], output: &mut [u8]) -> Result<usize, Refused>
    requires { (f ≡ small_format) × (opening_number f archive.now (table_words f) ≡ 0) × (room_words f ≤ length room.old) × ((i : ℕ) → i < room_words f → get_or room.old i 0 ≡ 0) }
    ensures value { result ≡ passes_reply f archive.now (length output.old) }
    ensures output_after { output.new ≡ output_of (passes_reply f archive.now (length output.old)) output.old (ruleOf f (items_of (run_of f archive.now))) }
    ensures room_len_unchanged { (length room.new ≡ length room.old) × (drop (room_words f) room.new ≡ drop (room_words f) room.old) }
{
    let stretch = tables::table_words(f);
    let fixed = first_pass::count_all(f, archive, room)?;
    let keys = tally::measure(&room[stretch..], stretch);
    write(f, archive, room, output, 8 * (fixed + keys))
}

// Repacks an archive into the output: how many bytes were written, or the refusal. Of the room the first 27,648 words are used, and are
// zero afterwards.
pub fn repack(archive: &[u8], room: &mut [u32], output: &mut [u8]) -> Result<usize, Refused>
    ensures value { result ≡ pack_reply small_format archive.now (length room.old) (length output.old) }
    ensures room_after { room.new ≡ pack_room small_format archive.now room.old }
    ensures output_after { output.new ≡ pack_output small_format archive.now (length room.old) output.old }
    ensures shortest { Shortest small_format archive.now result output.new }
{
    let f = format::small_format();
    check_packing(f, archive, room.len())?;
    let words = 4 * tables::table_words(f);
    tables::clear(room, words);
    let packed = pack(f, archive, room, output);
    tables::clear(room, words);
    packed
}
