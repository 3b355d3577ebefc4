// Where an instruction stands: at an index of a method of so many instructions, and at a place of
// the file.
#[derive(Clone, Copy)]
pub(crate) struct Spot {
    pub(crate) index: u16,
    pub(crate) size: u16,
    pub(crate) place: usize,
}
