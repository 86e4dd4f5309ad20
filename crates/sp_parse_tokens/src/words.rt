//! The words that were seen in a list of specifiers.
ghost use Rattle.std.specs.Prelude.{◌≡◌};
ghost use Rattle.std.specs.Int.RustNames.{bit_or};
ghost use Rattle.std.specs.Option.{option_map};
ghost use Rattle.sp_parse_grammar.specs.CTokens.{is_typed, add_word, add, nothing_seen};
ghost use Rattle.sp_parse_grammar.specs.CTable.{begins_specifiers};
ghost use Rattle.sp_parse_tokens.specs.Codes.{sort_seen, word_seen, has, length_by, base_by, length_seen, base_seen, seen_by, bit_seen, number_of_bit, beside};

use crate::sorts::{Mark, Sort, TypeWord};
use bitflags::{Flag, Flags, bitflag_items};

/// The words of one list of specifiers that were read so far.
#[derive(Clone, Copy, PartialEq, Eq, Debug)]
pub struct Words(u8);

bitflag_items! {
    impl Words: u8 {
        /// A storage class.
        const STORED = 1;
        /// `signed` or `unsigned`.
        const SIGNED = 2;
        const SHORT = 4;
        const LONG = 8;
        const CHAR = 16;
        const INT = 32;
        const DOUBLE = 64;
        /// A type beside which no other word of a type stands: `void`, `float`, a type name, a
        /// structure or an enumeration.
        const WHOLE = 128;
    }
}

impl Flags for Words {
    ghost use Rattle.std.specs.Prelude.{⊤, [], ◌∷◌, codes};

    type Bits = u8;

    ghost exact = { ⊤ };

    ghost table = { (codes "STORED", 1) ∷ (codes "SIGNED", 2) ∷ (codes "SHORT", 4) ∷ (codes "LONG", 8) ∷ (codes "CHAR", 16) ∷ (codes "INT", 32) ∷ (codes "DOUBLE", 64) ∷ (codes "WHOLE", 128) ∷ [] };

    ghost set_of = { λ words. words.0 };

    fn flags<'a>() -> &'a [Flag<Words>] {
        Words::FLAGS
    }

    fn bits(&self) -> u8 {
        self.0
    }

    fn from_bits_retain(bits: u8) -> Words {
        Words(bits)
    }
}

/// No words.
pub const NOTHING: Words = Words(0);

/// How long the type is, by `short` or `long`.
#[derive(Clone, Copy, PartialEq, Eq, Debug)]
enum Length {
    Plain,
    Short,
    Long,
}

/// What is known of the type: nothing, one of these words, or a type of another kind.
#[derive(Clone, Copy, PartialEq, Eq, Debug)]
enum Base {
    Nothing,
    Char,
    Int,
    Double,
    Whole,
}

/// One bit of the words.
#[derive(Clone, Copy, PartialEq, Eq, Debug)]
enum Bit {
    Signed,
    Short,
    Long,
    Char,
    Int,
    Double,
    Whole,
}

/// The words with one bit more.
fn with_bit(seen: Words, bit: Bit) -> Words
    ensures { result.0 ≡ bit_or seen.0 (number_of_bit (bit_seen bit)) }
{
    match bit {
        Bit::Signed => seen.union(Words::SIGNED),
        Bit::Short => seen.union(Words::SHORT),
        Bit::Long => seen.union(Words::LONG),
        Bit::Char => seen.union(Words::CHAR),
        Bit::Int => seen.union(Words::INT),
        Bit::Double => seen.union(Words::DOUBLE),
        Bit::Whole => seen.union(Words::WHOLE),
    }
}

/// How long the type of these words is.
fn length_of(seen: Words) -> Length
    ensures { length_seen result ≡ length_by (has seen.0 4) (has seen.0 8) }
{
    if seen.contains(Words::SHORT) {
        Length::Short
    } else if seen.contains(Words::LONG) {
        Length::Long
    } else {
        Length::Plain
    }
}

/// What is known of the type of these words.
fn base_of(seen: Words) -> Base
    ensures { base_seen result ≡ base_by (has seen.0 16) (has seen.0 32) (has seen.0 64) (has seen.0 128) }
{
    if seen.contains(Words::CHAR) {
        Base::Char
    } else if seen.contains(Words::INT) {
        Base::Int
    } else if seen.contains(Words::DOUBLE) {
        Base::Double
    } else if seen.contains(Words::WHOLE) {
        Base::Whole
    } else {
        Base::Nothing
    }
}

/// Whether some word of a type was seen.
pub fn is_typed(seen: Words) -> bool
    ensures { result ≡ is_typed (seen_by seen.0) }
{
    let signed = seen.contains(Words::SIGNED);
    match (signed, length_of(seen), base_of(seen)) {
        (false, Length::Plain, Base::Nothing) => false,
        _ => true,
    }
}

/// The bit that a word of a type adds to what is seen, where it may stand beside the others.
fn beside(word: TypeWord, signed: bool, length: Length, base: Base) -> Option<Bit>
    ensures { option_map bit_seen result ≡ beside (word_seen word) signed (length_seen length)
        (base_seen base) }
{
    match (word, signed, length, base) {
        (TypeWord::Void | TypeWord::Float, false, Length::Plain, Base::Nothing) => {
            Some(Bit::Whole)
        }
        (TypeWord::Char, _, Length::Plain, Base::Nothing) => Some(Bit::Char),
        (TypeWord::Short, _, Length::Plain, Base::Nothing | Base::Int) => Some(Bit::Short),
        (TypeWord::Long, _, Length::Plain, Base::Nothing | Base::Int) => Some(Bit::Long),
        (TypeWord::Long, false, Length::Plain, Base::Double) => Some(Bit::Long),
        (TypeWord::Int, _, _, Base::Nothing) => Some(Bit::Int),
        (TypeWord::Double, false, Length::Plain | Length::Long, Base::Nothing) => {
            Some(Bit::Double)
        }
        (TypeWord::Sign, false, _, Base::Nothing | Base::Int) => Some(Bit::Signed),
        (TypeWord::Sign, false, Length::Plain, Base::Char) => Some(Bit::Signed),
        _ => None,
    }
}

/// What is seen with a word of a type more, where it may stand beside the others.
fn add_word(seen: Words, word: TypeWord) -> Option<Words>
    ensures { option_map (λ w. seen_by w.0) result ≡ add_word (has seen.0 1) (word_seen word)
        (has seen.0 2) (length_by (has seen.0 4) (has seen.0 8))
        (base_by (has seen.0 16) (has seen.0 32) (has seen.0 64) (has seen.0 128)) }
{
    let signed = seen.contains(Words::SIGNED);
    match beside(word, signed, length_of(seen), base_of(seen)) {
        Some(bit) => Some(with_bit(seen, bit)),
        None => None,
    }
}

/// What is seen with a specifier more, where it may stand there: storage classes where `stores`
/// says so, `typedef` outside functions alone.
pub fn add_specifier(stores: bool, inside: bool, seen: Words, sort: Sort) -> Option<Words>
    ensures { option_map (λ w. seen_by w.0) result ≡ add stores inside (seen_by seen.0) (sort_seen sort) }
{
    match sort {
        Sort::Qualifier => Some(seen),
        Sort::Storage => {
            if stores && !seen.contains(Words::STORED) {
                Some(seen.union(Words::STORED))
            } else {
                None
            }
        }
        Sort::Mark(Mark::Typedef) => {
            if stores && !seen.contains(Words::STORED) && !inside {
                Some(seen.union(Words::STORED))
            } else {
                None
            }
        }
        Sort::Basic(word) => add_word(seen, word),
        Sort::NamedType(_) | Sort::Mark(Mark::Struct | Mark::Enum) => {
            if is_typed(seen) {
                None
            } else {
                Some(seen.union(Words::WHOLE))
            }
        }
        _ => None,
    }
}

/// Whether the token begins a list of specifiers.
pub fn begins_specifiers(stores: bool, inside: bool, sort: Sort) -> bool
    ensures { result ≡ begins_specifiers stores inside (sort_seen sort) }
{
    add_specifier(stores, inside, NOTHING, sort).is_some()
}
