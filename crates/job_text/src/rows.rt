//! The lines of a text, with the bytes that are left behind each.

ghost use Rattle.std.specs.Prelude.{◌≡◌, ◌<◌, [], ◌∷◌, length, IfNone, IfSome};
ghost use Rattle.job_text.specs.Rows.{rows};

use text_core::next_line;

/// The first line, and what stands behind it. None where the text is at its end.
pub(crate) fn next_row(text: &[u8]) -> Option<(&[u8], &[u8])>
    ensures none { IfNone result (text.now ≡ []) }
    ensures row { IfSome result (λ found. rows text.now ≡ record { line = found.0.now; left = length found.1.now } ∷ rows found.1.now) }
    ensures fewer { IfSome result (λ found. length found.1.now < length text.now) }
{
    match next_line(text) {
        None => None,
        Some((line, rest)) => Some((line, rest)),
    }
}
