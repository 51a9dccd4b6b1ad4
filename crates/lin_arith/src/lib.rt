//! Linear arithmetic: certificates that linear rows have no common solution.
#![tactic(auto)]

mod certificate;

pub use certificate::{CertAnswer, Column, Part, Row, check_certificate};
