// Parts of slices, for any numbers.

// The first so many to change, or all. (As in `garbage`, which says why each has its own.)
pub(crate) fn cut<T>(s: &mut [T], n: usize) -> &mut [T] {
    let n = n.min(s.len());
    &mut s[..n]
}
