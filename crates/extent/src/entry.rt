/// An extent with a code: a pair that is stored, or a node's child with the row that it lies in.
#[derive(Clone, Copy)]
pub struct Entry<E> {
    pub extent: E,
    pub code: u16,
}
