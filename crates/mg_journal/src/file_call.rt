/// A kind of call on a journal's file.
#[derive(Clone, Copy, Debug, PartialEq, Eq)]
pub enum FileCall {
    Read,
    Write,
    Cut,
    Sync,
    CreateNext,
    Keep,
    Replace,
}
