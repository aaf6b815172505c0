ghost use Rattle.std.specs.Prelude.{◌≡◌, ◌<◌, ◌^◌, true, IfSome, IfOk};
ghost use Rattle.mg_checkpoint.specs.Checkpoint.{checkpoint_text, without_speech};
ghost use Rattle.mg_core.specs.Base.{IsBase};
ghost use Rattle.mg_core.specs.World.{World};
ghost use Rattle.mg_core.specs.aids.Stands.{StandsFor};
ghost use Rattle.mg_journal.specs.Text.{EndsInLineFeed};
ghost use Rattle.mg_serve.specs.Fenced.{reached_line};
ghost use Rattle.mg_serve.specs.Renewal.{IsRestorable, renewal_text};

use crate::setup::Setup;
use arrayvec::ArrayVec;
use itoa::Buffer;
use mg_checkpoint::{restore, save};
use mg_core::{Config, Core};
use std::alloc::{AllocError, Global};

/// A line with the number that messages have reached, including its line feed.
type ReachedLine = ArrayVec<u8, 21>;

/// Returns the line that says which number the messages have reached.
fn reached_line(reached: u32) -> ReachedLine
    ensures value { result.items ≡ reached_line reached }
{
    let mut buffer = Buffer::new();
    let mut line = ReachedLine::new();
    let _ = line.try_extend_from_slice(b"# reached ");
    let _ = line.try_extend_from_slice(buffer.format(reached).as_bytes());
    let _ = line.try_extend_from_slice(b"\n");
    line
}

/// Returns the text of a renewed journal, given the checkpoint.
fn text_with(
    alloc: Global,
    setup: &Setup<'_>,
    checkpoint: &[u8],
    reached: u32,
) -> Result<Vec<u8>, AllocError>
    ensures value { IfOk result (λ text. text.items ≡ renewal_text setup.now.head checkpoint.now reached) }
{
    let mut text = setup.head().to_vec(alloc)?;
    text.extend_from_slice(checkpoint)?;
    text.extend_from_slice(b"# counted ticks\n")?;
    text.extend_from_slice(reached_line(reached).as_slice())?;
    Ok(text)
}

/// Returns whether a gateway can be restored from a checkpoint. Also returns `false` if memory runs out.
fn is_restorable(alloc: Global, config: Config, checkpoint: &[u8]) -> bool
    ensures base { result ≡ true → (base : World) × IsBase base × (without_speech base ≡ base) ×
        (checkpoint_text base ≡ checkpoint.now) }
{
    restore(alloc, config, checkpoint).is_ok()
}

/// Returns the text with which the journal is renewed: the head, the gateway's checkpoint, the line `# counted ticks`,
/// and the number that messages have reached.
///
/// Returns `None` if memory runs out, or if no gateway can be restored from the checkpoint.
pub fn renewal_text(alloc: Global, setup: &Setup<'_>, core: &Core, reached: u32) -> Option<Vec<u8>>
    ensures value { IfSome result (λ text. (w : World) → StandsFor core.now.state w →
        IsRestorable w × (reached < 2 ^ 32)
        × (text.items ≡ renewal_text setup.now.head (checkpoint_text w) reached)) }
    ensures line_feed { IfSome result (λ text. EndsInLineFeed text.items) }
{
    let mut checkpoint = Vec::new(alloc);
    let Ok(()) = save(core, &mut checkpoint) else {
        return None;
    };
    if !is_restorable(alloc, setup.config(), checkpoint.as_slice()) {
        return None;
    }
    let Ok(text) = text_with(alloc, setup, checkpoint.as_slice(), reached) else {
        return None;
    };
    Some(text)
}
