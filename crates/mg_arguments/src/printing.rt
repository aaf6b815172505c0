use crate::zone_name::ZoneName;
use mg_heard::Format;
use mg_service::FilePath;

/// The style in which answers about a script are printed.
#[derive(Drop)]
pub struct Printing {
    pub format: Format,
    /// The time zone of the times, or `None` for UTC.
    pub zone: Option<ZoneName>,
    /// The file with the names of terminations, or `None` for no names.
    pub names: Option<FilePath>,
}
