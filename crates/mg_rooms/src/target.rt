/// The context of an action.
#[derive(Clone, Copy, Debug, PartialEq, Eq)]
pub enum Target {
    /// The null context, which holds the terminations that aren't in any other context.
    Null,
    /// A new context (`$`), which does not exist yet.
    New,
    /// The context with this number, whether it exists or not.
    Number(u32),
}
