/// A stack in slots that the caller lends: the first `len` of them, or all where there are fewer, the last on top.
#[derive(Drop)]
pub struct Stack<'a, T> {
    pub(crate) slots: &'a mut [T],
    pub(crate) len: usize,
}
