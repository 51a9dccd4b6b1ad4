//! Tables by text.
ghost use Rattle.std.specs.Prelude.{◌≡◌, map};
ghost use Rattle.source_words.specs.Texts.{found_in, row_of};

/// What stands beside the first row with this text.
pub fn found_in<A: Copy>(table: &[(&str, A)], text: &[u8]) -> Option<A>
    ensures { result ≡ found_in (map row_of table.now) text.now }
{
    for (row, beside) in table {
        if row.as_bytes() == text {
            return Some(*beside);
        }
    }
    None
}
