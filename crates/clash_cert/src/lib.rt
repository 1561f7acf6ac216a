//! Certificates: their text, and making one.
#![tactic(auto)]

pub mod certificate;
mod choosing;
mod extending;
mod grouping;
pub mod groups;
mod laws;
mod looking;
pub mod making;
mod members;
mod reading;
mod writing;

pub use certificate::{
    CertFault, Certificate, Entry, Pair, first_wrong_line_is_one, one_certificate,
};
pub use choosing::{certificate_from, certificate_of};
pub use extending::extend;
pub use grouping::{certificate_written, group};
pub use groups::Group;
pub use laws::one_certificate_made;
pub use making::{Clash, Made, clash_of, make};
