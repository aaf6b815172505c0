use crate::format::Format;
use crate::names::Names;
use mg_dates::Zone;

/// The style of lines: their format, and the time zone and the names that they show.
#[derive(Drop)]
pub struct Style {
    pub format: Format,
    /// The time zone of the times.
    pub zone: Zone,
    /// The names of terminations.
    pub names: Names,
}
