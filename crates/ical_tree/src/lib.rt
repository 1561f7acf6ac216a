//! The tree of components that content lines spell (RFC 5545 3.4, 3.6), read and written.
//! Properties keep their lines as they are; their values aren't read here.
#![tactic(auto)]

pub mod component;
pub mod law;
pub mod own_lines;
pub mod properties;
pub mod read;
mod same;
pub mod write;

pub use component::Component;
pub use law::one_tree;
pub use own_lines::OwnLines;
pub use properties::Properties;
pub use read::{MAX_DEPTH, Object, read_object};
pub use write::write_object;
