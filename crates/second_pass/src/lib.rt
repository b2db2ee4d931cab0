// The second pass of a repack: it writes each item's record again, and before it the registrations that are new. Assumes what `Asks` says of
// archive, room and output. The first pass took the archive, so that no record of it loses anything.
#![tactic(auto)]

ghost use Rattle.std.specs.Prelude.{◌≡◌, ◌*◌, ◌<◌, length, drop};
ghost use Rattle.passes.specs.Models.Codes.{Chosen};
ghost use Rattle.passes.specs.Models.Last.{tables_of};
ghost use Rattle.words.specs.Stream.{overwritten};
ghost use Rattle.tables.specs.Table.{table_words};
ghost use Rattle.rule.specs.Rule.{rule as ruleOf};
ghost use Rattle.rule.specs.Refusal.{run_of, items_of};
ghost use Rattle.rewriting.specs.Models.Write.{tables_in, slots_in};
ghost use Rattle.rewriting.specs.Models.Fits.{Asks};
ghost use Rattle.rewriting.specs.Models.Indexed.{SlotsIndexed};

use encoding::Output;
use format::Format;

// Passes over the whole archive.
pub fn write_all(f: Format, archive: &[u8], room: &mut [u32], out: &mut [u8])
    requires asks { Asks f archive.now room.old out.old }
    requires chosen { Chosen f archive.now (slots_in f room.old) }
    ensures out_after { out.new ≡ overwritten out.old 0 (ruleOf f (items_of (run_of f archive.now))) }
    ensures room_after { tables_in f room.new ≡ tables_of f archive.now }
    ensures slots_indexed { SlotsIndexed f archive.now (slots_in f room.old) (slots_in f room.new) }
    ensures room_len_unchanged { (length room.new ≡ length room.old) × (drop (4 * table_words f) room.new ≡ drop (4 * table_words f) room.old) }
{
    let stretch = tables::table_words(f);
    let mut s = contexts::opening_state();
    let mut output = Output {
        format: f,
        buffer: out,
        place: 0,
    };
    let mut waiting = indexing::waiting_slot(&room[stretch..], stretch, Some(0));
    // No `for`: a record says itself how far it reaches.
    while s.place < archive.len() {
        let record = losses::kept_record_at(f, archive, s.place);
        let content = record.content;
        let next = record.next;
        let Ok(state) = passes::follow(f, &mut room[..stretch], s, content, next) else {
            return;
        };
        passes::renew(f, archive, &mut room[stretch..], s, content);
        let waits = waiting.is_some();
        rewriting::put_record(archive, room, &mut output, s, content, next, waits);
        waiting = indexing::waiting_slot(&room[stretch..], stretch, waiting);
        s = state;
    }
}
