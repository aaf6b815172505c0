/// The condition under which an append to a journal returns.
#[derive(Clone, Copy, Debug, PartialEq, Eq)]
pub enum Durability {
    /// The system has the lines. They survive a crash of the program, but perhaps not a crash of the machine.
    Written,
    /// The lines are on the disk.
    Synced,
}
