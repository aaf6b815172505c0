ghost use Rattle.std.specs.Prelude.{◌≡◌, ◌||◌, codes, Some};
ghost use Rattle.std.specs.Str.{bytes_eq};
ghost use Rattle.mg_fence.specs.Fence.{passes, raised_by};

/// The heartbeat that `mg_bridge check` sends: an audit of ROOT in the null context (RFC 3525, section 7.2.5).
pub const HEARTBEAT: &[u8] = b"MEGACO/1 <check>\nTransaction=1{Context=-{AuditValue=ROOT}}";

/// The message that acknowledges the heartbeat's reply, so that the gateway does not keep it.
pub const ACKNOWLEDGEMENT: &[u8] = b"MEGACO/1 <check>\nTransactionResponseAck{1}";

/// A fence against messages with a number below `reached`. That is the number at which the fence began or, if higher,
/// the highest number of a message that has been run since.
#[derive(Clone, Copy, Debug, PartialEq, Eq)]
pub struct Fence {
    pub reached: u32,
    /// Whether messages without a number are dropped, except for those of `mg_bridge check`.
    pub strict: bool,
}

/// Returns whether this is a message that `mg_bridge check` sends.
fn is_check(bytes: &[u8]) -> bool
    ensures value { result ≡
        (bytes_eq bytes.now (codes "MEGACO/1 <check>\nTransaction=1{Context=-{AuditValue=ROOT}}")
        || bytes_eq bytes.now (codes "MEGACO/1 <check>\nTransactionResponseAck{1}")) }
{
    bytes == HEARTBEAT || bytes == ACKNOWLEDGEMENT
}

impl Fence {
    /// Returns whether a message with this number, or without a number, may be run.
    pub fn passes(&self, bytes: &[u8], number: Option<u32>) -> bool
        ensures value { result ≡ passes (Some self.now) bytes.now number }
    {
        match number {
            Some(number) => self.reached <= number,
            None => !self.strict || is_check(bytes),
        }
    }

    /// Returns the fence after a message with this number, or without a number, was run.
    pub fn raised_by(self, number: Option<u32>) -> Self
        ensures value { result ≡ raised_by number self }
    {
        Fence {
            reached: self.reached.max(number.unwrap_or(0)),
            strict: self.strict,
        }
    }
}
