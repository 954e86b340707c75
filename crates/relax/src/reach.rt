//! How far a short jump reaches.

ghost use Rattle.relax.specs.Private.Spans.{IsSpan};

/// The longest span over which a short jump reaches its target.
pub(crate) const LONGEST: u8 = 129;

/// Answers how far it is from a short jump to its target: the bytes between their addresses, and three more if the
/// target comes first, since a short jump reaches 129 bytes forward from its first byte and 126 back. 255 stands for
/// everything longer.
pub(crate) fn span(from: u32, to: u32) -> u8
    ensures { IsSpan from to result }
{
    let bytes = if from <= to {
        to - from
    } else {
        (from - to).saturating_add(3)
    };
    bytes.min(255) as u8
}
