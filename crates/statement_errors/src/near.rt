//! Names that differ little.

/// How many bytes at their fronts are equal.
fn common_len(a: &[u8], b: &[u8]) -> usize {
    for (at, byte) in a.iter().enumerate() {
        if b.get(at) != Some(byte) {
            return at;
        }
    }
    a.len()
}

/// Whether two names are equal.
fn is_equal(a: &[u8], b: &[u8]) -> bool {
    a == b
}

/// Whether two names whose first bytes differ are equal but for these: one more, less or other, or two exchanged.
fn differ_at_front(a: &[u8], b: &[u8]) -> bool {
    match (a, b) {
        ([], []) => true,
        ([_, rest @ ..], []) => rest.is_empty(),
        ([], [_, rest @ ..]) => rest.is_empty(),
        ([x, behind_x @ ..], [y, behind_y @ ..]) => {
            is_equal(behind_x, behind_y)
                || is_equal(behind_x, b)
                || is_equal(a, behind_y)
                || match (behind_x, behind_y) {
                    ([v, left @ ..], [w, right @ ..]) => x == w && y == v && is_equal(left, right),
                    _ => false,
                }
        }
    }
}

/// The fewest bytes of the longer of two names that may count as near.
const SHORTEST: usize = 3;

/// Whether one name is the other with one byte more, less or other, or with two bytes exchanged, and one of the two is not too short.
pub fn is_near(a: &[u8], b: &[u8]) -> bool {
    a.len().max(b.len()) >= SHORTEST && differ_little(a, b)
}

/// Whether one word is the other with one byte more, less or other, or with two bytes exchanged.
pub(crate) fn differ_little(a: &[u8], b: &[u8]) -> bool {
    if a.len().abs_diff(b.len()) > 1 {
        return false;
    }
    let len = common_len(a, b);
    let (_, a) = a.split_at(len.min(a.len()));
    let (_, b) = b.split_at(len.min(b.len()));
    differ_at_front(a, b)
}
