use proof_kernel::Step;
use text_core::{Items, Text};

/// A step with the line where it stands. Lines count from 1.
#[derive(Drop)]
pub struct NumberedStep {
    pub line: u32,
    pub step: Step,
}

/// A proof: the obligation's number and owner, its steps with their lines, and the line of its `end`. Lines count
/// from 1.
#[derive(Drop)]
pub struct Proof {
    pub number: u32,
    pub owner: Text,
    pub steps: Items<NumberedStep>,
    pub end: u32,
}

/// The proofs of a file, in order. No two have the same number and owner.
#[derive(Drop)]
pub struct ProofFile {
    pub proofs: Items<Proof>,
}
