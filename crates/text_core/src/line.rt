ghost use Rattle.std.specs.Prelude.{◌≡◌, ◌+◌, ◌<◌, ◌^◌, length, take, count_by, ◌==◌};

const LINE_FEED: u8 = b'\n';

/// The number of the line, from 1, in which the byte at this offset, from 0, stands: one more than the line feeds
/// before it. An offset past the end counts all line feeds. Takes no memory.
pub fn line_of(bytes: &[u8], offset: u32) -> u32
    requires { length bytes.now + 1 < 2 ^ 32 }
    ensures { result ≡ 1 + count_by (λ b. b == 10) (take offset bytes.now) }
{
    let end = bytes.len().min(offset as usize);
    let mut line: u32 = 1;
    for b in &bytes[..end] {
        if *b == LINE_FEED {
            line += 1;
        }
    }
    line
}
