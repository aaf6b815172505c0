/// The number of bytes at a journal's start that must contain the title's line and the first words of the next line. A
/// title has at most 512 bytes.
pub(crate) const FRONT: usize = 1024;
