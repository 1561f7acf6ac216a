//! The words of a column.

use crate::no_answer::NoAnswer;

/// The first word of a text, and what follows it.
pub fn first_word(text: &str) -> (&str, &str) {
    text.split_once(' ').unwrap_or((text, ""))
}

/// The number that a word spells.
pub fn number(word: &str) -> Result<i64, NoAnswer> {
    word.parse::<i64>().ok().ok_or(NoAnswer::Unreadable)
}

/// The number, at least 0, that a word spells.
pub fn count(word: &str) -> Result<u32, NoAnswer> {
    word.parse::<u32>().ok().ok_or(NoAnswer::Unreadable)
}

/// The small number that a word spells.
pub fn small(word: &str) -> Result<u8, NoAnswer> {
    word.parse::<u8>().ok().ok_or(NoAnswer::Unreadable)
}
