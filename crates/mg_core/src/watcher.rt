ghost use Rattle.std.specs.Prelude.{◌≡◌, Bool};

use crate::follower::Follower;

/// A [`Follower`] that can be done before the script ends.
pub trait Watcher: Follower {
    /// Whether a follower in this state is done.
    ghost done: { Self → Bool };

    /// Returns whether the rest of the script can be left unread.
    fn is_done(&self) -> bool
        ensures value { result ≡ done self.now };
}
