//! Texts compared.
ghost use Rattle.std.specs.Prelude.{◌≡◌};
ghost use Rattle.std.specs.Str.{bytes_eq};

/// Whether two texts are the same. Their lengths are compared first, and then their first bytes, since most names differ there.
#[inline(always)]
pub fn same_text(a: &str, b: &str) -> bool
    ensures { result ≡ bytes_eq a.now b.now }
{
    if a.len() != b.len() {
        return false;
    }
    let (front, other) = (a.as_bytes(), b.as_bytes());
    if !front.is_empty() && front[0] != other[0] {
        return false;
    }
    a == b
}
