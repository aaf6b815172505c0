ghost use Rattle.std.specs.Prelude.{◌≡◌};
ghost use Rattle.mg_fence.specs.Fence.{passes};
ghost use Rattle.mg_serve.specs.Fenced.{after_message};

use mg_fence::Fence;

/// A session's fence, if it has one, and the number that its messages have reached: the highest number so far, even
/// without a fence.
#[derive(Clone, Copy, Debug, PartialEq, Eq)]
pub struct Fencing {
    pub fence: Option<Fence>,
    pub reached: u32,
}

impl Fencing {
    /// Returns whether a message with this number, or without a number, passes the fence. Without a fence, each message
    /// passes.
    pub fn passes(&self, bytes: &[u8], number: Option<u32>) -> bool
        ensures value { result ≡ passes self.now.fence bytes.now number }
    {
        match &self.fence {
            Some(fence) => fence.passes(bytes, number),
            None => true,
        }
    }

    /// Returns the fence and the number after a message with this number, or without a number, was run.
    pub fn after_message(self, number: Option<u32>) -> Self
        ensures value { result ≡ after_message number self }
    {
        let fence = match self.fence {
            Some(fence) => Some(fence.raised_by(number)),
            None => None,
        };
        Fencing {
            fence,
            reached: self.reached.max(number.unwrap_or(0)),
        }
    }
}
