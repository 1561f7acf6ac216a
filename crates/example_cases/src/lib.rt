//! What the programs of examples share: the lines of a table, the files of a case, how columns spell octets, and how an answer is put together. Nothing of
//! what it gives is proved beyond that it is safe and ends: what the programs print is compared with their `stdout`.
#![tactic(auto)]

pub mod answers;
pub mod case;
pub mod files;
pub mod no_answer;
pub mod spelled;
pub mod words;

pub use answers::Answers;
pub use case::Case;
pub use no_answer::NoAnswer;
