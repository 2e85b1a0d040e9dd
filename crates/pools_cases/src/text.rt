// Parts of slices and sums of them, for any numbers.

// A mark, 0 past the end.
pub(crate) fn mark(marks: &[u8], i: usize) -> u8 {
    marks.get(i).copied().unwrap_or(0)
}

// The first so many, or all. (As in `garbage`, which says why each has its own.)
pub(crate) fn first<T>(s: &[T], n: usize) -> &[T] {
    &s[..n.min(s.len())]
}

// The first so many to change, or all. (As in `garbage`, which says why each has its own.)
pub(crate) fn cut<T>(s: &mut [T], n: usize) -> &mut [T] {
    let n = n.min(s.len());
    &mut s[..n]
}

// A sum with one number more. It shows a changed number, and two that are exchanged. (As in `garbage`, which says why each has
// its own.)
fn added(sum: u64, x: u32) -> u64 {
    (sum % 1000003 * 31 + x as u64) % 1000003
}

// The sum of words or of marks.
pub(crate) fn sum<T: Copy + Into<u32>>(s: &[T]) -> u64 {
    let mut sum = 0;
    for x in s {
        sum = added(sum, (*x).into());
    }
    sum
}
