// Arguments, written into a lent output one behind the other.
#![tactic(auto)]

ghost use Rattle.std.specs.Prelude.{◌≡◌, ◌+◌, ◌*◌, ◌^◌, ◌<◌, ◌≤◌, [], ◌∷◌, length};
ghost use Rattle.encoding.specs.Encoded.{word as wordPart, encoded_argument};
ghost use Rattle.words.specs.Word.{unsigned, bit};
ghost use Rattle.arguments.specs.Argument.{scalar_type};
ghost use Rattle.encoding.specs.Models.Output.{Holds, Writes};
ghost use Rattle.encoding.specs.Models.Part.{text_part, argument_start, text_argument, scalar_argument};

use arguments::Scalar;
use encoding::Output;

// An argument's header and name, where so many words follow them.
fn put_argument_start(
    out: &mut Output,
    variant: u64,
    more: usize,
    half: u64,
    index: usize,
    name: &[u8],
)
    requires variant_bound { (variant < 2 ^ 4) × (half < 2 ^ 32) × (index < 2 ^ 15) × (length name.now < 2 ^ 15) }
    requires more_len_bound { (length (argument_start out.old.format variant more half (text_part index name.now)) + more * 8 < 2 ^ 15) × Holds out.old (λ f. argument_start f variant more half (text_part index name.now)) }
    ensures { Writes out.old (λ f. argument_start f variant more half (text_part index name.now)) out.new }
{
    let named = words::with_field(
        format::header(variant, 1 + encoding::text_words(index, name) + more),
        16,
        31,
        encoding::text_reference(index, name),
    );
    out.put_word(words::with_field(named, 32, 63, half));
    out.put_text(index, name);
}

// An argument whose value stands in its header.
fn put_short_argument(out: &mut Output, variant: u64, half: u64, index: usize, name: &[u8])
    requires variant_bound { (variant < 2 ^ 4) × (half < 2 ^ 32) × (index < 2 ^ 15) × (length name.now < 2 ^ 15) }
    requires name_len_bound { (length (encoded_argument out.old.format variant half (text_part index name.now) []) < 2 ^ 15) × Holds out.old (λ f. encoded_argument f variant half (text_part index name.now) []) }
    ensures { Writes out.old (λ f. encoded_argument f variant half (text_part index name.now) []) out.new }
{
    put_argument_start(out, variant, 0, half, index, name);
}

// An argument whose value is a word behind its name.
fn put_word_argument(out: &mut Output, variant: u64, word: u64, index: usize, name: &[u8])
    requires variant_bound { (variant < 2 ^ 4) × (index < 2 ^ 15) × (length name.now < 2 ^ 15) }
    requires word_len_bound { (length (encoded_argument out.old.format variant 0 (text_part index name.now) (wordPart word ∷ [])) < 2 ^ 15) × Holds out.old (λ f. encoded_argument f variant 0 (text_part index name.now) (wordPart word ∷ [])) }
    ensures { Writes out.old (λ f. encoded_argument f variant 0 (text_part index name.now) (wordPart word ∷ [])) out.new }
{
    put_argument_start(out, variant, 1, 0, index, name);
    out.put_word(word);
}

// An argument whose value is a text.
pub fn put_text_argument(out: &mut Output, index: usize, name: &[u8], key: usize, text: &[u8])
    requires index_bound { (index < 2 ^ 15) × (length name.now < 2 ^ 15) × (key < 2 ^ 15) × (length text.now < 2 ^ 15) }
    requires text_len_bound { (length (text_argument out.old.format (text_part index name.now) (text_part key text.now)) < 2 ^ 15) × Holds out.old (λ f. text_argument f (text_part index name.now) (text_part key text.now)) }
    ensures { Writes out.old (λ f. text_argument f (text_part index name.now) (text_part key text.now)) out.new }
{
    let more = encoding::text_words(key, text);
    put_argument_start(
        out,
        6,
        more,
        encoding::text_reference(key, text),
        index,
        name,
    );
    out.put_text(key, text);
}

// The bits of a signed number, as the high half of a header holds them.
fn unsigned_half(n: i32) -> u64
    ensures { (result ≡ unsigned 32 n) × (result < 2 ^ 32) }
{
    u64::from(n.cast_unsigned())
}

// The bits of a signed number, as a word holds them.
fn unsigned_word(n: i64) -> u64
    ensures { result ≡ unsigned 64 n }
{
    n.cast_unsigned()
}

// A truth value, as the high half of a header holds it.
fn boolean_half(b: bool) -> u64
    ensures { (result ≡ bit b) × (result < 2) }
{
    u64::from(b)
}

// An argument whose value is no text.
pub fn put_scalar_argument(out: &mut Output, scalar: Scalar, index: usize, name: &[u8])
    requires scalar_bound { (scalar_type scalar < 2 ^ 4) × (index < 2 ^ 15) × (length name.now < 2 ^ 15) }
    requires scalar_len_bound { (length (scalar_argument out.old.format (text_part index name.now) scalar) < 2 ^ 15) × Holds out.old (λ f. scalar_argument f (text_part index name.now) scalar) }
    ensures { Writes out.old (λ f. scalar_argument f (text_part index name.now) scalar) out.new }
{
    match scalar {
        Scalar::Null => put_short_argument(out, 0, 0, index, name),
        Scalar::Signed32(n) => put_short_argument(out, 1, unsigned_half(n), index, name),
        Scalar::Unsigned32(n) => put_short_argument(out, 2, n as u64, index, name),
        Scalar::Signed64(n) => put_word_argument(out, 3, unsigned_word(n), index, name),
        Scalar::Unsigned64(n) => put_word_argument(out, 4, n, index, name),
        Scalar::Double(n) => put_word_argument(out, 5, n, index, name),
        Scalar::Pointer(n) => put_word_argument(out, 7, n, index, name),
        Scalar::KernelObject(n) => put_word_argument(out, 8, n, index, name),
        Scalar::Boolean(b) => put_short_argument(out, 9, boolean_half(b), index, name),
        Scalar::Unknown(variant) => put_short_argument(out, variant as u64, 0, index, name),
    }
}
