//! Entries of a node, read where their bytes stand.
ghost use Rattle.std.specs.Prelude.{◌≡◌, ℕ, ◌+◌, ◌-◌, ◌^◌, ◌<◌, ◌≤◌, ◌==◌, Bool, not, ◌&&◌, ◌||◌, List, [], ◌∷◌, ◌++◌, length, drop, IfSome, IsSomeAnd};
ghost use Rattle.std.specs.Int.{w16, to_be_bytes};
ghost use Rattle.std.specs.List.{AllByRecursion};
ghost use Rattle.lldb_btree.specs.Bounds.{is_ahead};
ghost use Rattle.lldb_btree.specs.Nodes.{Entry, IsTail, IsEntry, entry_bytes, body};
ghost use Rattle.lldb_btree.specs.Reading.{IsSought};

use crate::Bound;

/// A run of bytes behind its length in two bytes, and what follows it.
pub(crate) fn split_counted(bytes: &[u8]) -> Option<(&[u8], &[u8])>
    ensures is { IfSome result (λ r. bytes.now
        ≡ to_be_bytes w16 (length r.0.now) ++ (r.0.now ++ r.1.now)) }
    ensures whole { (run more : List ℕ) → length run < 2 ^ 16 → bytes.now
        ≡ to_be_bytes w16 (length run) ++ (run ++ more)
        → IsSomeAnd result (λ r. (r.0.now ≡ run) × (r.1.now ≡ more)) }
{
    let (len, rest) = bytes.split_first_chunk::<2>()?;
    rest.split_at_checked(u16::from_be_bytes(*len) as usize)
}

/// What stands behind a key, and what follows it.
pub(crate) fn split_tail(leaf: bool, bytes: &[u8]) -> Option<(&[u8], &[u8])>
    ensures is { IfSome result (λ r. (bytes.now ≡ r.0.now ++ r.1.now) × IsTail leaf r.0.now) }
    ensures whole { (tail more : List ℕ) → IsTail leaf tail → bytes.now ≡ tail ++ more
        → IsSomeAnd result (λ r. (r.0.now ≡ tail) × (r.1.now ≡ more)) }
{
    if !leaf {
        return bytes.split_at_checked(8);
    }
    let len = *bytes.first()?;
    if len > 16 {
        return None;
    }
    bytes.split_at_checked(len as usize + 1)
}

/// The key of an entry, what stands behind it, and what follows the entry.
pub(crate) fn split_entry(leaf: bool, bytes: &[u8]) -> Option<(&[u8], &[u8], &[u8])>
    ensures is { IfSome result (λ r. (bytes.now ≡ entry_bytes
        (record { key = r.0.now; tail = r.1.now }) ++ r.2.now) × IsTail leaf r.1.now) }
    ensures whole { (e : Entry) (more : List ℕ) → IsEntry leaf e → bytes.now ≡ entry_bytes e ++ more
        → IsSomeAnd result (λ r. (r.0.now ≡ e.key) × (r.1.now ≡ e.tail) × (r.2.now ≡ more)) }
{
    let (key, rest) = split_counted(bytes)?;
    let (tail, rest) = split_tail(leaf, rest)?;
    Some((key, tail, rest))
}

/// Whether a search among so many entries ends with the first of them, as its key says.
fn ends_here(leaf: bool, left: usize, bound: &Bound, key: &[u8]) -> bool
    ensures { result ≡ (is_ahead bound.now key.now || (not leaf && (left == 1))) }
{
    bound.is_ahead(key) || (!leaf && left == 1)
}

/// The bytes and the number of the entries from the first one on whose key is ahead of a bound. In an inner node the last
/// entry counts as ahead. No key is copied.
pub(crate) fn seek<'a>(
    leaf: bool,
    bytes: &'a [u8],
    left: usize,
    bound: &Bound,
) -> Option<(&'a [u8], usize)>
    ensures { (es : List Entry) → AllByRecursion (IsEntry leaf) es → length es ≡ left → bytes.now
        ≡ body es → IsSomeAnd result
        (λ r. IsSought leaf (is_ahead bound.now) es r.0.now r.1) }
{
    if left == 0 {
        return Some((bytes, 0));
    }
    let (key, _, rest) = split_entry(leaf, bytes)?;
    if ends_here(leaf, left, bound, key) {
        return Some((bytes, left));
    }
    seek(leaf, rest, left - 1, bound)
}
