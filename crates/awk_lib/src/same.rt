// Whether two texts are the same, several bytes at a time: `==` of `[u8]` looks at each by itself.
ghost use Rattle.std.specs.Prelude.{◌≡◌};
ghost use Rattle.std.specs.Str.{bytes_eq};

/// Whether eight bytes are the same.
fn are_eight(x: &[u8; 8], y: &[u8; 8]) -> bool
    ensures { result ≡ bytes_eq x.now y.now }
{
    u64::from_le_bytes(*x) == u64::from_le_bytes(*y)
}

/// Whether four bytes are the same.
fn are_four(x: &[u8; 4], y: &[u8; 4]) -> bool
    ensures { result ≡ bytes_eq x.now y.now }
{
    u32::from_le_bytes(*x) == u32::from_le_bytes(*y)
}

/// Whether the texts are the same, where fewer than four bytes are left.
fn is_same_few(x: &[u8], y: &[u8]) -> bool
    ensures { result ≡ bytes_eq x.now y.now }
{
    match (x, y) {
        ([], []) => true,
        ([a], [b]) => a == b,
        ([a, c], [b, d]) => a == b && c == d,
        ([a, c, e], [b, d, f]) => a == b && c == d && e == f,
        _ => x == y,
    }
}

/// Whether the texts are the same, where fewer than eight bytes are left.
fn is_same_rest(x: &[u8], y: &[u8]) -> bool
    ensures { result ≡ bytes_eq x.now y.now }
{
    match (x.split_first_chunk::<4>(), y.split_first_chunk::<4>()) {
        (Some((p, x)), Some((q, y))) => are_four(p, q) && is_same_few(x, y),
        _ => is_same_few(x, y),
    }
}

/// Whether two texts are the same bytes.
pub fn is_same(x: &[u8], y: &[u8]) -> bool
    ensures { result ≡ bytes_eq x.now y.now }
{
    if x.len() != y.len() {
        return false;
    }
    let (mut left, mut right) = (x, y);
    while let (Some((p, xs)), Some((q, ys))) = (
        left.split_first_chunk::<8>(),
        right.split_first_chunk::<8>(),
    ) {
        if !are_eight(p, q) {
            return false;
        }
        (left, right) = (xs, ys);
    }
    is_same_rest(left, right)
}
