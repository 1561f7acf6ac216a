//! Content lines of iCalendar (RFC 5545 3.1): unfolding, lines, folding, and the end of an object.
//! Input is octets, output is text that lends its lines. Values of properties aren't read here.
#![tactic(auto)]

pub mod fault;
pub mod first_line;
pub mod fold;
pub mod law;
pub mod limits;
pub mod line;
mod name;
pub mod object_end;
pub mod param;
mod pieces;
pub mod text;
pub mod unfold;

pub use fault::{Fault, Refusal};
pub use first_line::first_line_end;
pub use fold::{write_line, write_property};
pub use law::{lines_read_back, object_ends_with_its_line, read_lines_are_content};
pub use limits::Limits;
pub use line::Line;
pub use object_end::{Cutter, cut};
pub use param::{Param, Params};
pub use text::{Lines, Unfolded};
pub use unfold::{split_line, without_mark};
