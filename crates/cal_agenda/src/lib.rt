//! What a room has confirmed in a span of time, and when it is free. No instance starts in year 10000 or later: behind those that began before it,
//! the room is free.
#![tactic(auto)]

pub mod confirmed;
mod days;
pub mod free_spans;
mod html;
mod in_order;
mod in_span;
mod of_series;
mod of_singles;
pub mod page;
pub mod page_span;
pub mod published;
pub mod text;

pub use confirmed::agenda;
pub use free_spans::{free, free_by, is_free};
pub use page::html_page;
pub use page_span::PageSpan;
pub use published::{plain_address, publish};
pub use text::{write_agenda, write_spans};
