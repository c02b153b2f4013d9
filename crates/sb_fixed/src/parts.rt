// The parts of a number's text.
ghost use Rattle.std.specs.Prelude.{◌≡◌, ◌≤◌, ◌==◌, length};
ghost use Rattle.std.specs.List.{before_first, after_first, position_or_len};
ghost use Rattle.sb_fixed.specs.Decimals as spec;

/// What stands before the first such byte, or all, and what stands behind it, or nothing.
pub(crate) fn cut(text: &[u8], mark: u8) -> (&[u8], &[u8])
    ensures before { result.0.now ≡ before_first (λ b. b == mark) text.now }
    ensures behind { result.1.now ≡ after_first (λ b. b == mark) text.now }
{
    let at = place_of(text, mark);
    if at < text.len() {
        (&text[..at], &text[at + 1..])
    } else {
        (text, &[])
    }
}

/// Where the first such byte stands; the length where there is none.
fn place_of(text: &[u8], mark: u8) -> usize
    ensures place { result ≡ position_or_len (λ b. b == mark) text.now }
    ensures within { result ≤ length text.now }
{
    text.iter().take_while(|byte| **byte != mark).count()
}

/// Whether a minus stands first.
pub(crate) fn has_minus(text: &[u8]) -> bool
    ensures { result ≡ spec.has_minus text.now }
{
    match text.first() {
        Some(byte) => *byte == b'-',
        None => false,
    }
}
