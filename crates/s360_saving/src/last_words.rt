//! The last words of a line.
ghost use Rattle.std.specs.Prelude.{◌≡◌, ◌≤◌, length, nat_eq, not};
ghost use Rattle.std.specs.List.{suffix_len};
ghost use Rattle.s360_saving.specs.LastWords.{before_word, last_word, up_to_word};

/// How many blanks stand at the end of a line.
fn blanks_at_end(line: &[u8]) -> usize
    ensures count { result ≡ suffix_len (λ b. nat_eq b 32) line.now }
    ensures within { result ≤ length line.now }
{
    line.iter().rev().take_while(|byte| **byte == b' ').count()
}

/// How many bytes behind its last blank a line has.
fn others_at_end(line: &[u8]) -> usize
    ensures count { result ≡ suffix_len (λ b. not (nat_eq b 32)) line.now }
    ensures within { result ≤ length line.now }
{
    line.iter().rev().take_while(|byte| **byte != b' ').count()
}

/// A line up to the end of its last word.
pub(crate) fn up_to_word(line: &[u8]) -> &[u8]
    ensures { result.now ≡ up_to_word line.now }
{
    &line[..line.len() - blanks_at_end(line)]
}

/// What stands before the last word of a line.
pub(crate) fn before_word(line: &[u8]) -> &[u8]
    ensures { result.now ≡ before_word line.now }
{
    let line = up_to_word(line);
    &line[..line.len() - others_at_end(line)]
}

/// The last word of a line, which is empty if the line has none.
pub(crate) fn last_word(line: &[u8]) -> &[u8]
    ensures { result.now ≡ last_word line.now }
{
    let line = up_to_word(line);
    &line[line.len() - others_at_end(line)..]
}
