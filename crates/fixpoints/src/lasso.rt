/// A path that comes back: how many states it has, and the place of the one that its last state leads to.
#[derive(Clone, Copy, PartialEq, Eq, Debug)]
pub struct Lasso {
    pub length: usize,
    pub place: usize,
}
