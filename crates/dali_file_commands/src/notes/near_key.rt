ghost use Rattle.std.specs.Prelude.{◌≤◌, length};

/// The first of the keys that the text becomes by one change at most, if there is one: a letter more, a letter less,
/// another letter, or two neighbours turned. Upper and lower case count as the same.
pub fn near_key<'a>(text: &str, keys: &[&'a str]) -> Option<&'a str> {
    for &key in keys {
        if is_near(text.as_bytes(), key.as_bytes()) {
            return Some(key);
        }
    }
    None
}

// Whether one change at most makes the one of the other.
fn is_near(one: &[u8], other: &[u8]) -> bool {
    let front = common_front(one, other);
    let (one, other) = (&one[front..], &other[front..]);
    match (one, other) {
        ([_, rest @ ..], []) | ([], [_, rest @ ..]) => rest.is_empty(),
        ([a, b, rest @ ..], [c, d, more @ ..])
            if a.eq_ignore_ascii_case(d) && b.eq_ignore_ascii_case(c) => {
            rest.eq_ignore_ascii_case(more)
        }
        ([_, rest @ ..], [_, more @ ..]) => {
            rest.eq_ignore_ascii_case(more)
                || rest.eq_ignore_ascii_case(other)
                || one.eq_ignore_ascii_case(more)
        }
        ([], []) => true,
    }
}

// How many bytes are the same at the front of both, except for their case.
fn common_front(one: &[u8], other: &[u8]) -> usize
    ensures { (result ≤ length one.now) × (result ≤ length other.now) }
{
    let most = one.len().min(other.len());
    for at in 0..most {
        if !one[at].eq_ignore_ascii_case(&other[at]) {
            return at;
        }
    }
    most
}
