// Reading and repacking for programs in other languages: each call puts what it answers as numbers at the start of lent words, and
// replies how many. Nothing is asked of a caller.
#![tactic(auto)]

ghost use Rattle.std.specs.Prelude.{◌≡◌, length};
ghost use Rattle.format.specs.Limits.{small_format};
ghost use Rattle.reader.specs.Step.{open_reply, open_tables, step_reply, step_tables};
ghost use Rattle.reader.specs.Ask.{argument_reply};
ghost use Rattle.packer.specs.Pack.{pack_reply, pack_room, pack_output};
ghost use Rattle.blocks.specs.Block.{asked_numbers, reply_numbers, given_state, put_count, put_numbers};
ghost use Rattle.exports.specs.Block.{packed_numbers};

use blocks::{given_state, put_asked, put_four, put_reply};
use format::Refused;

// The block of what a repack answers, where the words hold it.
fn put_packed(out: &mut [u64], packed: Result<usize, Refused>) -> u64
    ensures value { result ≡ put_count (length out.old) 4 }
    ensures out_after { out.new ≡ put_numbers out.old (packed_numbers packed) }
{
    if out.len() < 4 {
        return 0;
    }
    match packed {
        Err(refused) => put_four(out, 0, [1, refused.number as u64, refused.place as u64, 0]),
        Ok(length) => put_four(out, 0, [11, length as u64, 0, 0]),
    }
    4
}

// Opens an archive, and puts the reply: twenty numbers of its answer, twenty of its state.
#[unsafe(no_mangle)]
pub extern "C" fn inthuchot_open(archive: &[u8], tables: &mut [u32], out: &mut [u64]) -> u64
    ensures value { result ≡ put_count (length out.old) 40 }
    ensures out_after { out.new ≡ put_numbers out.old (reply_numbers (open_reply small_format archive.now (length tables.old))) }
    ensures tables_after { tables.new ≡ open_tables small_format archive.now tables.old }
{
    let opened = reader::open(archive, tables);
    put_reply(out, opened)
}

// Steps once from the state of twenty numbers, and puts the reply.
#[unsafe(no_mangle)]
pub extern "C" fn inthuchot_step(
    archive: &[u8],
    tables: &mut [u32],
    numbers: &[u64],
    out: &mut [u64],
) -> u64
    ensures value { result ≡ put_count (length out.old) 40 }
    ensures out_after { out.new ≡ put_numbers out.old (reply_numbers (step_reply small_format archive.now tables.old (given_state numbers.now))) }
    ensures tables_after { tables.new ≡ step_tables small_format archive.now tables.old (given_state numbers.now) }
{
    let start = given_state(numbers);
    let stepped = reader::step(archive, start, tables);
    put_reply(out, stepped)
}

// Asks for an argument in the state of twenty numbers, and puts its twenty numbers.
#[unsafe(no_mangle)]
pub extern "C" fn inthuchot_argument(
    archive: &[u8],
    tables: &[u32],
    numbers: &[u64],
    event: usize,
    number: usize,
    out: &mut [u64],
) -> u64
    ensures value { result ≡ put_count (length out.old) 20 }
    ensures out_after { out.new ≡ put_numbers out.old (asked_numbers (argument_reply small_format archive.now tables.now (given_state numbers.now) event number)) }
{
    put_asked(
        out,
        reader::argument(archive, given_state(numbers), tables, event, number),
    )
}

// Repacks an archive, and puts what is answered in four numbers.
#[unsafe(no_mangle)]
pub extern "C" fn inthuchot_repack(
    archive: &[u8],
    room: &mut [u32],
    output: &mut [u8],
    out: &mut [u64],
) -> u64
    ensures value { result ≡ put_count (length out.old) 4 }
    ensures out_after { out.new ≡ put_numbers out.old (packed_numbers (pack_reply small_format archive.now (length room.old) (length output.old))) }
    ensures room_after { room.new ≡ pack_room small_format archive.now room.old }
    ensures output_after { output.new ≡ pack_output small_format archive.now (length room.old) output.old }
{
    put_packed(out, packer::repack(archive, room, output))
}
