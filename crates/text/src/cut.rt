// Where a text is cut: lines at byte 10, fields at byte 9.
ghost use Rattle.std.specs.Prelude.{◌≡◌, ◌<◌, ◌≤◌, length, position, ◌==◌};
ghost use Rattle.text.specs.Cuts.{up_to, past, marks};

// Where the first mark stands, if there is one.
fn first_mark(text: &[u8], mark: u8) -> Option<usize>
    ensures { result ≡ position (λ c. c == mark) text.now }
{
    text.iter().position(|b| *b == mark)
}

// What stands before the first mark, and what stands behind it.
pub(crate) fn split_at_mark(text: &[u8], mark: u8) -> (&[u8], &[u8])
    ensures front { result.0.now ≡ up_to mark text.now }
    ensures behind { result.1.now ≡ past mark text.now }
    ensures less { 0 < length text.now → length result.1.now < length text.now }
{
    match first_mark(text, mark) {
        Some(n) => (&text[..n], &text[n + 1..]),
        None => (text, &text[text.len()..]),
    }
}

// How often the mark stands in a text.
pub(crate) fn count_marks(text: &[u8], mark: u8) -> usize
    ensures count { result ≡ marks mark text.now }
    ensures within { result ≤ length text.now }
{
    text.iter().filter(|b| **b == mark).count()
}
