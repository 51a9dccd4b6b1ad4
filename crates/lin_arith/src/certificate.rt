//! Farkas certificates: that linear rows have no common solution.

ghost use Rattle.std.specs.Prelude.{◌≡◌, ◌↔◌, ℕ, ◌+◌, ◌*◌, ◌^◌, ◌<◌, ◌≤◌, length, ℤ, ◌+ℤ◌, ◌*ℤ◌, All, FitsSigned, SomeIff, IsTrue, MatchOption, MatchBool, MatchResult, pos, ◌≤ℤ◌};
ghost use Rattle.std.specs.Int.{w128};
ghost use Rattle.lin_arith.specs.Certificate.{HasRisingAtoms, AllRowsHold, IsCertificate, IsNarrow, IsFirstWide, IsFirstNegative, FailsAt, factor_of, entry_of};
ghost use Rattle.lin_arith.specs.Columns.{lesser_of, joined_of, IsNextAtom, IsColumnSum, IsFalseSum, IsOutcome};

use text_core::Items;

/// One term of a linear row: the factor times the atom.
#[derive(Clone, Copy)]
pub struct Part {
    pub atom: u32,
    pub factor: i128,
}

/// The sum of the parts and the constant is at least 0. Atoms rise.
#[derive(Drop)]
pub struct Row {
    pub parts: Items<Part>,
    pub constant: i128,
}

/// Whether multipliers show that rows have no common solution.
#[derive(Clone, Copy)]
pub enum CertAnswer {
    /// They do: none is negative, and the rows add up to a false constant row.
    Good,
    /// At this row, counted from 0, the first product or running sum passes 128 bits signed.
    TooWide(u32),
    /// They do not: this is the first row with a negative multiplier, or the number of rows where none is negative.
    Fails(u32),
}

/// What rows are added up in: the factors of an atom, or the constants. What is said of certificates goes by columns.
#[derive(Clone, Copy)]
pub enum Column {
    Factors(u32),
    Constants,
}

/// Whether the multipliers, one for each row, are a Farkas certificate of the rows. Takes no memory.
pub fn check_certificate(rows: &[Row], mult: &[i128]) -> CertAnswer
    requires same_length { length rows.now ≡ length mult.now }
    requires atoms_rise { All HasRisingAtoms rows.now }
    requires few { length rows.now < 2 ^ 32 }
    ensures good { (result ≡ CertAnswer.Good) ↔ (IsCertificate rows.now mult.now × IsNarrow rows.now mult.now) }
    ensures wide { (r : ℕ) → (result ≡ CertAnswer.TooWide r) ↔ IsFirstWide rows.now mult.now r }
    ensures fails { (r : ℕ) → (result ≡ CertAnswer.Fails r) ↔ (FailsAt rows.now mult.now r × IsNarrow rows.now mult.now) }
    // Farkas' lemma: at no values of the atoms do all the rows hold.
    ensures sound { result ≡ CertAnswer.Good → (value : ℕ → ℤ) → ¬ (AllRowsHold value rows.now) }
{
    match columns_outcome(rows, mult) {
        Err(row) => CertAnswer::TooWide(row),
        Ok(is_false) => match first_negative(mult) {
            Some(row) => CertAnswer::Fails(row),
            None if is_false => CertAnswer::Good,
            None => CertAnswer::Fails(rows.len() as u32),
        },
    }
}

/// The first row with a negative multiplier.
fn first_negative(mult: &[i128]) -> Option<u32>
    requires { length mult.now < 2 ^ 32 }
    ensures { MatchOption result (All (λ m. pos 0 ≤ℤ m) mult.now) (λ r. IsFirstNegative mult.now r) }
{
    for (row, by) in mult.iter().enumerate() {
        if *by < 0 {
            return Some(row as u32);
        }
    }
    None
}

/// Whether each column of the combination is as in a false constant row, or the first row that is wide in some column.
fn columns_outcome(rows: &[Row], mult: &[i128]) -> Result<bool, u32>
    requires same_length { length rows.now ≡ length mult.now }
    requires atoms_rise { All HasRisingAtoms rows.now }
    requires few { length rows.now < 2 ^ 32 }
    ensures { IsOutcome (λ _. Unit {0}) rows.now mult.now result }
{
    let mut outcome = column_outcome(rows, mult, Column::Constants);
    let mut from: u64 = 0;
    while let Some(atom) = next_atom(rows, from) {
        let here = column_outcome(rows, mult, Column::Factors(atom));
        outcome = joined(outcome, here);
        from = u64::from(atom) + 1;
    }
    outcome
}

/// The outcome of what the two outcomes speak of.
fn joined(before: Result<bool, u32>, here: Result<bool, u32>) -> Result<bool, u32>
    ensures { result ≡ joined_of before here }
{
    match (before, here) {
        (Ok(one), Ok(other)) => Ok(one && other),
        (Ok(_), Err(row)) | (Err(row), Ok(_)) => Err(row),
        (Err(one), Err(other)) => Err(one.min(other)),
    }
}

fn column_outcome(rows: &[Row], mult: &[i128], column: Column) -> Result<bool, u32>
    requires same_length { length rows.now ≡ length mult.now }
    requires atoms_rise { All HasRisingAtoms rows.now }
    requires few { length rows.now < 2 ^ 32 }
    ensures { IsOutcome (λ c. c ≡ column) rows.now mult.now result }
{
    let sum = column_sum(rows, mult, column)?;
    Ok(column.is_false_sum(sum))
}

/// The column's sum, or the first row that is wide in it.
fn column_sum(rows: &[Row], mult: &[i128], column: Column) -> Result<i128, u32>
    requires same_length { length rows.now ≡ length mult.now }
    requires atoms_rise { All HasRisingAtoms rows.now }
    requires few { length rows.now < 2 ^ 32 }
    ensures { IsColumnSum column rows.now mult.now result }
{
    let mut sum: i128 = 0;
    for (at, row) in rows.iter().enumerate() {
        match added_product(sum, row.entry(column), mult[at]) {
            Some(next) => sum = next,
            None => return Err(at as u32),
        }
    }
    Ok(sum)
}

/// The sum and the product of the other two; `None` exactly where the product or the sum passes 128 bits.
fn added_product(sum: i128, entry: i128, by: i128) -> Option<i128>
    ensures { SomeIff result (FitsSigned w128 (entry *ℤ by) × FitsSigned w128 (sum +ℤ entry *ℤ by)) (sum +ℤ entry *ℤ by) }
{
    let product = entry.checked_mul(by)?;
    sum.checked_add(product)
}

/// The least atom from this number on that a row has.
fn next_atom(rows: &[Row], from: u64) -> Option<u32>
    requires { All HasRisingAtoms rows.now }
    ensures { IsNextAtom rows.now from result }
{
    let mut next: Option<u32> = None;
    for row in rows {
        next = lesser(next, row.next_atom(from));
    }
    next
}

/// The lesser of the two atoms, where both are there.
fn lesser(one: Option<u32>, other: Option<u32>) -> Option<u32>
    ensures { result ≡ lesser_of one other }
{
    match (one, other) {
        (Some(a), Some(b)) => Some(a.min(b)),
        (Some(a), None) | (None, Some(a)) => Some(a),
        (None, None) => None,
    }
}

impl Column {
    /// Whether a false constant row can have this sum in the column.
    fn is_false_sum(self, sum: i128) -> bool
        ensures { IsTrue result ↔ IsFalseSum self sum }
    {
        match self {
            Column::Factors(_) => sum == 0,
            Column::Constants => sum < 0,
        }
    }
}

impl Row {
    fn entry(&self, column: Column) -> i128
        requires { HasRisingAtoms self.now }
        ensures { result ≡ entry_of column self.now }
    {
        match column {
            Column::Factors(atom) => self.factor(atom),
            Column::Constants => self.constant,
        }
    }

    fn factor(&self, atom: u32) -> i128
        requires { HasRisingAtoms self.now }
        ensures { result ≡ factor_of atom self.now.parts }
    {
        for part in self.parts.as_slice() {
            if part.atom == atom {
                return part.factor;
            }
        }
        0
    }

    /// The least atom from this number on.
    fn next_atom(&self, from: u64) -> Option<u32>
        requires { HasRisingAtoms self.now }
        ensures { MatchOption result ((a : ℕ) → from ≤ a → factor_of a self.now.parts ≡ pos 0) (λ n. (from ≤ n) × ((a : ℕ) → from ≤ a → a < n → factor_of a self.now.parts ≡ pos 0)) }
    {
        for part in self.parts.as_slice() {
            if u64::from(part.atom) >= from {
                return Some(part.atom);
            }
        }
        None
    }
}
