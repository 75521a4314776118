// Slices that are lent to calls.

// So many of the first elements, or all.
pub fn front<T>(all: &[T], most: usize) -> &[T] {
    let len = all.len();
    let (front, _) = all.split_at(most.min(len));
    front
}

// The same, to be written to.
pub fn front_mut<T>(all: &mut [T], most: usize) -> &mut [T] {
    let len = all.len();
    let (front, _) = all.split_at_mut(most.min(len));
    front
}
