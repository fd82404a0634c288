// Words that are decimal numbers.
ghost use Rattle.std.specs.Prelude.{List, ℕ, Result};
ghost use Rattle.std.specs.declared.num.ParseIntError.{ParseIntError};
ghost use Rattle.std.specs.Result.{result_ok};
ghost use Rattle.command.specs.Words.{Reads, Spells, SpellsSigned, reads_unsigned, reads_signed};

use std::num::ParseIntError;
use std::str::FromStr;

// A type whose numbers are spelled by words.
pub trait Number: FromStr<Err = ParseIntError> {
    // Holds of a word and the number that it spells.
    ghost spells: { List ℕ → Self → Type 0 };

    // What is parsed of a word is what it spells.
    ghost reads_spelled: { (word : List ℕ) (r : Result Self ParseIntError) → Self.from_str_gives word r → Reads (spells word) (result_ok r) };
}

// Numbers of 8 bits.
impl Number for u8 {
    ghost spells = { Spells 8 };

    ghost reads_spelled = { λ word r h. reads_unsigned 8 word r h.0 };
}

// Numbers of 16 bits.
impl Number for u16 {
    ghost spells = { Spells 16 };

    ghost reads_spelled = { λ word r h. reads_unsigned 16 word r h.0 };
}

// Numbers of 32 bits, with or without a sign.
impl Number for i32 {
    ghost spells = { SpellsSigned };

    ghost reads_spelled = { λ word r h. reads_signed word r h.0 };
}

// The number that a word spells.
pub fn number_of<T: Number>(word: &str) -> Option<T>
    ensures { Reads (T.spells word.now) result }
{
    word.parse().ok()
}
