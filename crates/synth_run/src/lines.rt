//! The lines of an input.

ghost use Rattle.std.specs.Prelude.{◌≡◌, ◌∷◌, ◌++◌, MatchOption, position, true};
ghost use Rattle.std.specs.Io.BufRead.{strip_last};
ghost use Rattle.synth_run.specs.Lines.{is_lf, is_unended};
ghost use Rattle.synth_run.specs.Synth.{after_line};

/// The line without the one CR at its end, where there is one.
pub(crate) fn without_cr(line: &[u8]) -> &[u8]
    ensures value { result.now ≡ strip_last 13 line.now }
{
    match line {
        [front @ .., b'\r'] => front,
        _ => line,
    }
}

/// Where the first LF stands.
fn line_end(bytes: &[u8]) -> Option<usize>
    ensures value { result ≡ position is_lf bytes.now }
{
    bytes.iter().position(|byte| *byte == b'\n')
}

/// The bytes before the first LF, and those after it, where there is one.
#[tactic(auto, using(crate::proofs::Cutting::no_end))]
pub(crate) fn split_line(bytes: &[u8]) -> Option<(&[u8], &[u8])>
    ensures parts { MatchOption result (is_unended bytes.now ≡ true)
        (λ (front, behind). (is_unended front.now ≡ true) × (bytes.now ≡ front.now ++ 10 ∷ behind.now)) }
{
    match line_end(bytes) {
        Some(at) => Some((&bytes[..at], &bytes[at + 1..])),
        None => None,
    }
}

/// The bytes after the first line.
#[tactic(auto, using(crate::proofs::Cutting::after_split, crate::proofs::Cutting::after_none))]
pub(crate) fn after_line(text: &[u8]) -> &[u8]
    ensures value { result.now ≡ after_line text.now }
{
    match split_line(text) {
        Some((_, behind)) => behind,
        None => &[],
    }
}
