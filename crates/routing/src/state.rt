// Whether an arc may be used, and whether it is chosen.
#[derive(Clone, Copy)]
pub(crate) enum State {
    LeftOut,
    Free,
    Chosen,
}
