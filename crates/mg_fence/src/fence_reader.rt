ghost use Rattle.std.specs.Prelude.{◌≡◌, ℕ, Option, OnOk, max, unwrap_or};
ghost use Rattle.mg_fence.specs.Number.{HasNumber};
ghost use Rattle.mg_fence.specs.Reached.{number_reached, number_set};

use crate::number::number_in;
use mg_core::{Core, Event, Follower, Stopped};
use mg_words::number_of;
use std::alloc::Global;

/// Reads the number that a journal has reached: the number to which an operator last set the fence (0 if none did) or,
/// if higher, the highest number since then. Such a number is that of a message, or one that a comment says was
/// reached. Stops if memory runs out.
#[derive(Drop)]
pub struct FenceReader {
    alloc: Global,
    pub reached: u32,
}

/// Returns the number in a comment such as `# fence 17`, in which an operator set the fence.
fn number_set(line: &[u8]) -> Option<u32>
    ensures value { result ≡ number_set line.now }
{
    number_of(line.strip_prefix(b"# fence ".as_slice())?)
}

/// Returns the number in a comment such as `# reached 17`, with which a renewed journal states the number that it had
/// reached.
fn number_reached(line: &[u8]) -> Option<u32>
    ensures value { result ≡ number_reached line.now }
{
    number_of(line.strip_prefix(b"# reached ".as_slice())?)
}

impl FenceReader {
    /// Creates a reader, at the start of a journal.
    pub fn new(alloc: Global) -> Self
        ensures start { result.reached ≡ 0 }
    {
        FenceReader { alloc, reached: 0 }
    }

    /// Takes the number of a message into account. Stops if there is no memory to read the message.
    fn pass_message(&mut self, bytes: &[u8]) -> Result<(), Stopped>
        ensures value { OnOk result ((number : Option ℕ) × HasNumber bytes.now number
            × (self.new.reached ≡ max self.old.reached (unwrap_or number 0))) }
    {
        let Ok(parsed) = Core::read(self.alloc, bytes) else {
            return Err(Stopped);
        };
        let number = number_in(bytes, &parsed);
        self.reached = self.reached.max(number.unwrap_or(0));
        Ok(())
    }
}

impl Follower for FenceReader {
    ghost use Rattle.std.specs.Prelude.{true};
    ghost use Rattle.mg_fence.specs.Reached.{Reaches};

    ghost may_stop = { true };

    ghost follows = { λ start f base notes. Reaches 0 notes f.reached };

    fn comment(&mut self, _number: u64, line: &[u8]) -> Result<(), Stopped> {
        let raised = self.reached.max(number_reached(line).unwrap_or(0));
        self.reached = number_set(line).unwrap_or(raised);
        Ok(())
    }

    fn datagram(&mut self, event: &Event, _core: &Core) -> Result<(), Stopped> {
        match event {
            Event::Control(_, bytes) => self.pass_message(bytes.as_slice()),
            Event::Media(_, _, _) => Ok(()),
            Event::Tick => Ok(()),
        }
    }

    fn ticks(&mut self, _core: &Core, _count: u64) -> Result<(), Stopped> {
        Ok(())
    }
}
