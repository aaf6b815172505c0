ghost use Rattle.std.specs.Prelude.{◌≡◌};
ghost use Rattle.mg_heard.specs.Came.{unless_missing};
ghost use Rattle.mg_heard.specs.declared.verdict.Verdict.TheVariants as verdicts;

use crate::interval::Interval;
use crate::missing::Missing;

/// The answer to a question about a given time.
#[derive(Clone, Copy, Debug, PartialEq, Eq)]
pub enum Verdict {
    /// The answer is yes, as shown by the first interval that the query selects and that contains the time.
    CouldHear(Interval),
    CouldNotHear,
    /// The script has no date; or the time is before its first date, at or after its end, or in a gap; or the gateway
    /// never had the listener or the talker.
    Unknown,
}

impl Verdict {
    /// Returns the verdict, or `Unknown` if a talker or a listener is missing.
    pub(crate) fn if_known(self, missing: Missing) -> Verdict
        ensures value { result ≡ unless_missing verdicts.Unknown missing self }
    {
        if missing.is_any() {
            Verdict::Unknown
        } else {
            self
        }
    }
}
