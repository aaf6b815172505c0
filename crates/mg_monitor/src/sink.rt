/// Receives the text of all metrics whenever they are due.
pub trait Sink {
    /// Replaces the previous text. Text that can't be stored is dropped.
    fn put(&mut self, text: &[u8]);
}
