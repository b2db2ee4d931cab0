// The names sheet of request W5: whether it keeps its rules, and what an index stands for in it. Any bytes may be handed in.
#![tactic(auto)]

ghost use Rattle.std.specs.Prelude.{◌≡◌, ◌+◌, ◌≤◌, ◌<◌, length};
ghost use Rattle.sheets.specs.Sheet.{number_at, starts_from, is_whole, is_good, first_bad, has_version, breach_of, find_of};

// Where the text of an index stands in a sheet.
#[derive(Clone, Copy)]
pub struct Text {
    pub place: usize,
    pub length: usize,
}

// The number of the two bytes at a place, the high one first.
fn number(sheet: &[u8], place: usize) -> usize
    requires { place + 2 ≤ length sheet.now }
    ensures { (result ≡ number_at sheet.now place) × (result < 65536) }
{
    usize::from(u16::from_be_bytes([sheet[place], sheet[place + 1]]))
}

// Whether the entry that starts at a place ends inside the sheet. What is left is compared, so that no sum can overflow.
fn is_whole(sheet: &[u8], at: usize) -> bool
    requires { at ≤ length sheet.now }
    ensures { result ≡ is_whole sheet.now at }
{
    let left = sheet.len() - at;
    4 <= left && number(sheet, at) <= left - 4
}

// Whether the entry that starts at a place keeps the rules, behind an entry of the index `before`, 0 where it is the first.
fn is_good(sheet: &[u8], longest: usize, before: usize, at: usize) -> bool
    requires { at ≤ length sheet.now }
    ensures { result ≡ is_good sheet.now longest before at }
{
    if !is_whole(sheet, at) {
        return false;
    }
    let index = number(sheet, at + 2);
    number(sheet, at) <= longest && before < index && index <= 32767
}

// The start of the first bad entry from a place on, behind an entry of the index `last`.
fn breach_from(sheet: &[u8], longest: usize, last: usize, start: usize) -> Option<usize>
    requires { start ≤ length sheet.now }
    ensures { result ≡ first_bad sheet.now longest last (starts_from sheet.now start) }
{
    let mut before = last;
    let mut at = start;
    // Each entry says how long it is, so no range and no chunks give the starts.
    while at < sheet.len() {
        if !is_good(sheet, longest, before, at) {
            return Some(at);
        }
        before = number(sheet, at + 2);
        at += 4 + number(sheet, at);
    }
    None
}

#[tactic(auto, using(std::proofs::lemmas::Bool::Decides::nat_tests), unfolding(crate::specs::Sheet::has_version))]
fn has_version(sheet: &[u8]) -> bool
    ensures { result ≡ has_version sheet.now }
{
    matches!(sheet, [1, ..])
}

// Where a sheet whose texts may have at most `longest` bytes first breaks its rules.
pub fn first_breach(sheet: &[u8], longest: usize) -> Option<usize>
    ensures { result ≡ breach_of sheet.now longest }
{
    if !has_version(sheet) {
        return Some(0);
    }
    breach_from(sheet, longest, 0, 1)
}

// The text of an index: that of the first entry that has it.
pub fn find(sheet: &[u8], index: usize) -> Option<Text>
    ensures { result ≡ find_of sheet.now index }
{
    let mut at = 1;
    // Each entry says how long it is, so no range and no chunks give the starts.
    while at < sheet.len() {
        if !is_whole(sheet, at) {
            return None;
        }
        let length = number(sheet, at);
        if number(sheet, at + 2) == index {
            return Some(Text {
                place: at + 4,
                length,
            });
        }
        at += 4 + length;
    }
    None
}
