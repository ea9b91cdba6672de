// What upholds the colour of a state while a column falls, and from where on to try next.
#[derive(Clone, Copy)]
pub(crate) struct Note {
    pub(crate) witness: usize,
    pub(crate) tried: usize,
}
