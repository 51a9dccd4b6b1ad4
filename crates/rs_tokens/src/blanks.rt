//! What stands between tokens.
ghost use Rattle.std.specs.Prelude.{◌≡◌, ◌≤◌, ◌<◌, ◌==◌, ◌&&◌, ◌||◌, not, List, ℕ, length, drop, MatchOption, IsTrue};
ghost use Rattle.std.specs.List.{prefix_len};
ghost use Rattle.rs_tokens.specs.Blanks.{is_white, begins, is_no_line_feed, CommentEnds, BlankEnds, Settles};

fn is_white(byte: u8) -> bool
    ensures { result ≡ is_white byte }
{
    matches!(byte, b' ' | b'\t' | b'\r' | b'\n')
}

/// Whether the text begins with these two bytes.
pub fn begins(text: &[u8], first: u8, second: u8) -> bool
    ensures { result ≡ begins text.now first second }
{
    match text {
        [a, b, ..] => *a == first && *b == second,
        _ => false,
    }
}

/// How many bytes stand before the line's end.
fn line_len(text: &[u8]) -> usize
    ensures count { result ≡ prefix_len is_no_line_feed text.now }
    ensures within { result ≤ length text.now }
{
    text.iter().take_while(|byte| **byte != b'\n').count()
}

/// The length of what stands behind the `/*` of a comment, with the `*/` that closes it; `None` where none does.
fn comment_len(text: &[u8]) -> Option<usize>
    ensures within { MatchOption result (Unit {0}) (λ len. len ≤ length text.now) }
    ensures ends { MatchOption result ((rest : List ℕ) → CommentEnds text.now rest → ⊥) (λ len. CommentEnds text.now (drop len text.now)) }
{
    let mut depth: usize = 1;
    let mut at = 0;
    while at < text.len() {
        let rest = &text[at..];
        if begins(rest, b'*', b'/') {
            at += 2;
            depth -= 1;
            if depth == 0 {
                return Some(at);
            }
        } else if begins(rest, b'/', b'*') {
            at += 2;
            depth += 1;
        } else {
            at += 1;
        }
    }
    None
}

/// The length of the blank at the front; `None` where none stands there, or a comment that is not closed.
fn blank_len(text: &[u8]) -> Option<usize>
    ensures within { MatchOption result (Unit {0}) (λ len. (0 < len) × (len ≤ length text.now)) }
    ensures ends { MatchOption result ((after : List ℕ) → BlankEnds text.now after → ⊥) (λ len. BlankEnds text.now (drop len text.now)) }
{
    let first = *text.first()?;
    if is_white(first) {
        return Some(1);
    }
    if begins(text, b'/', b'/') {
        return Some(2 + line_len(&text[2..]));
    }
    if begins(text, b'/', b'*') {
        return Some(2 + comment_len(&text[2..])?);
    }
    None
}

/// The length of all blanks at the front.
pub fn blanks_len(text: &[u8]) -> usize
    ensures within { result ≤ length text.now }
    ensures settles { Settles text.now (drop result text.now) }
{
    let mut at = 0;
    while let Some(len) = blank_len(&text[at..]) {
        at += len;
    }
    at
}
