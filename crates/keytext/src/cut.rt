//! Where a text is cut.

ghost use Rattle.keytext.specs.Cuts.{IsCut};

/// Cuts a text before its first byte `b`, or at its end where there is none.
pub(crate) fn cut(text: &[u8], b: u8) -> (&[u8], &[u8])
    ensures { IsCut b text.now result.0.now result.1.now }
{
    let place = text.iter().position(|x| *x == b);
    text.split_at(place.unwrap_or(text.len()))
}
