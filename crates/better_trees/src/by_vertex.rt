/// The value of a vertex, or another one where it has none.
pub fn at<T: Copy>(values: &[T], vertex: u32, other: T) -> T {
    values.get(vertex as usize).copied().unwrap_or(other)
}

/// Changes the value of a vertex, if it has one.
pub fn put<T: Copy>(values: &mut [T], vertex: u32, value: T) {
    if let Some(old) = values.get_mut(vertex as usize) {
        *old = value;
    }
}
