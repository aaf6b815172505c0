use arrayvec::ArrayVec;
use mg_core::Counts;
use mg_fence::Fence;
use std::io::Write;

/// A line that is built before it is printed.
pub type Text = ArrayVec<u8, 512>;

/// Returns the counts as a line, without a line feed.
///
/// The counts are those of control datagrams, RTP datagrams, ticks, sends, failures, dropped RTP datagrams by cause,
/// and concealed frames. If there is a fence, its number and the count of stale messages follow.
pub fn counts_text(counts: &Counts, fence: Option<Fence>, stale: u64) -> Text {
    let Counts {
        control,
        media,
        ticks,
        sent,
        failed,
        dropped,
        concealed,
        ..
    } = counts;
    let [a, b, c, d, e, f] = dropped;
    let mut text = Text::new();
    let _ = write!(
        text,
        "control={control} media={media} ticks={ticks} sent={sent} failed={failed} dropped={a},{b},{c},{d},{e},{f} concealed={concealed}"
    );
    if let Some(fence) = fence {
        let _ = write!(text, " fence={} stale={stale}", fence.reached);
    }
    text
}
