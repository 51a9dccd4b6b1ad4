//! The call of the program.
ghost use Rattle.std.specs.Prelude.{◌≡◌, ◌≢◌, ◌⊎◌, ◌≤◌, ℕ, List, [], map, string_bytes, Err, Ok, IfOk, Some};
ghost use Rattle.std.specs.Io.KnownBytes.{Appends};
ghost use Rattle.text_core.specs.Counts.{Rose};
ghost use Rattle.io_edge.specs.Faults.{NoneFalls};
ghost use Rattle.io_edge.specs.Shelf.{Files};
ghost use Rattle.io_edge.specs.Sink.{AppendsPrefix};
ghost use Rattle.creusot_cli.specs.Call.{AnswersWords, ReportsWords, PrintsPart, CannotRead};
ghost use Rattle.call_words.specs.Asked.{asked_of};

mod answer;
#[cfg(test)]
mod device_tests;
mod files;
pub mod laws;
#[cfg(test)]
mod limit_tests;
mod plan;
#[cfg(test)]
mod programs;
#[cfg(test)]
mod struct_programs;
#[cfg(test)]
mod tests;

use crate::verify::answer::Plan;
use crate::verify::files::Stop;
use crate::verify::plan::plan_of;
use call_words::request_of;
use io_edge::{Shelf, Sink, SinkError, write_all};
use report_out::words_error;
use std::alloc::Global;

/// The status for the words, and what is printed with it.
fn plan_of_words<S: Shelf>(alloc: Global, words: &[String], shelf: &mut S) -> Result<Plan, Stop>
    ensures ok { IfOk result (λ p. AnswersWords (S.holds shelf.old) (asked_of (map string_bytes words.now)) p.status p.bytes.items) }
    ensures holds { S.holds shelf.new ≡ S.holds shelf.old }
    ensures failed { result ≡ Err Stop.ShelfFailed → CannotRead (S.holds shelf.old) (S.read_faults shelf.old) (S.read_faults shelf.new) (asked_of (map string_bytes words.now)) }
    ensures none_falls { NoneFalls (S.read_faults shelf.old) (S.read_faults shelf.new) }
    ensures no_write { S.write_faults shelf.new ≡ S.write_faults shelf.old }
{
    match request_of(alloc, words)? {
        None => {
            let bytes = words_error(alloc)?;
            Ok(Plan { status: 2, bytes })
        }
        Some(request) => plan_of(alloc, request, shelf),
    }
}

/// Prints, and answers the status: the plan's, 6 where the output failed, or 8 where memory was refused.
fn print<K: Sink>(plan: &Plan, out: &mut K) -> u8
    ensures printed { result ≢ 6 → result ≢ 8 → (result ≡ plan.now.status) × Appends (K.written out.old) (K.written out.new) plan.now.bytes.items }
    ensures part { AppendsPrefix (K.written out.old) (K.written out.new) plan.now.bytes.items }
    ensures failed { plan.now.status ≢ 6 → result ≡ 6 → Rose (K.faults out.old) (K.faults out.new) }
    ensures never_falls { K.faults out.old ≤ K.faults out.new }
{
    match write_all(out, plan.bytes.as_slice()) {
        Ok(()) => plan.status,
        Err(SinkError::Failed) => 6,
        Err(SinkError::NoMemory) => 8,
    }
}

/// Runs the program: answers its status, and prints on `out`.
///
/// The words are `verify SOURCE`, with `--proofs FILE` or without, and `list SOURCE`, as `call_words` reads them. 0: all obligations of
/// the source are proved, or they are listed. 1: some is not. 2: the words are no words of the program. 3: the source is refused, by its code and place. 4: the proof file has a
/// bad line. 5: a file could not be read; nothing is printed. 6: the output failed. 7: a quantity is past its bound. 8:
/// memory was refused. With 6 and 8 a prefix of what was to be printed is.
pub fn creusot<S: Shelf, K: Sink>(alloc: Global, words: &[String], shelf: &mut S, out: &mut K) -> u8
    // By `verify`, each function that is listed as verified is good; by `list`, all obligations are listed.
    ensures verified { (result ≡ 0) ⊎ (result ≡ 1) → ReportsWords (S.holds shelf.old) (asked_of (map string_bytes words.now)) result (K.written out.old) (K.written out.new) }
    ensures answers { result ≢ 5 → result ≢ 6 → result ≢ 8
        → (bytes : List ℕ) × AnswersWords (S.holds shelf.old) (asked_of (map string_bytes words.now)) result bytes × Appends (K.written out.old) (K.written out.new) bytes }
    // Where the shelf tells its files, a row of the table that is so is the answer.
    ensures exactly { (files : Files) → S.holds shelf.old ≡ Some files → (status : ℕ) (bytes : List ℕ) → AnswersWords (Some files) (asked_of (map string_bytes words.now)) status bytes
        → result ≢ 5 → result ≢ 6 → result ≢ 8 → (result ≡ status) × Appends (K.written out.old) (K.written out.new) bytes }
    // At every status what was printed is a front of what the table says.
    ensures part { PrintsPart (S.holds shelf.old) (asked_of (map string_bytes words.now)) (K.written out.old) (K.written out.new) }
    ensures unread { result ≡ 5 → CannotRead (S.holds shelf.old) (S.read_faults shelf.old) (S.read_faults shelf.new) (asked_of (map string_bytes words.now)) × (out.new ≡ out.old) }
    ensures unwritten { result ≡ 6 → Rose (K.faults out.old) (K.faults out.new) }
    ensures holds { S.holds shelf.new ≡ S.holds shelf.old }
    ensures no_write { S.write_faults shelf.new ≡ S.write_faults shelf.old }
    ensures none_falls { NoneFalls (S.read_faults shelf.old) (S.read_faults shelf.new) }
    ensures never_falls { K.faults out.old ≤ K.faults out.new }
    ensures number { result ≤ 8 }
{
    match plan_of_words(alloc, words, shelf) {
        Ok(plan) => print(&plan, out),
        Err(Stop::ShelfFailed) => 5,
        Err(Stop::NoMemory) => 8,
    }
}
