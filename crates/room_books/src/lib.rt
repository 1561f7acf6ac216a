//! A room: it takes messages, answers them, and keeps a calendar and a certificate.
#![tactic(auto)]

pub mod answer;
mod change;
mod claim;
mod claims;
mod confirming;
mod decide;
mod gone;
mod hidden;
mod kept;
mod laws;
pub mod meeting;
mod recurring;
mod refresh;
mod reply;
pub mod room;
mod slots;
pub mod texts;
mod timeline;

pub use answer::{Answer, Kind, LimitKind};
pub use laws::{
    accepted_where_clear, answers_name_texts, answers_stay, kept_calendar_is_of_room,
    kept_texts_pass, kept_texts_spell, one_kept_calendar, runs_stay_clear, served_texts_pass,
};
pub use room::Room;
pub use texts::KeptTexts;
