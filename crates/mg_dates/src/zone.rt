use crate::date::{Date, TimeText};
use jiff::tz::{Offset, TimeZone, Tzif};
use std::alloc::Global;
use std::fs::{Files, OpenOptions};
use std::io::{Read, Write};

/// The folder with the system's time zones (the IANA database).
const FOLDER: &str = "/usr/share/zoneinfo/";

/// The maximum size of a time zone's file, in bytes.
const FILE_LIMIT: u64 = 65_536;

/// A time zone in which times are written.
#[derive(Drop)]
pub enum Zone {
    Utc,
    /// A zone that always has this offset.
    Fixed(Offset),
    /// A zone of the system, as its file describes it.
    System(Tzif),
}

/// Returns the number that two digits spell, if it is at most `last`.
fn two_digits(digits: &[u8], last: u8) -> Option<u8> {
    let number = match digits {
        [a @ b'0'..=b'9', b @ b'0'..=b'9'] => (*a - b'0') * 10 + (*b - b'0'),
        _ => return None,
    };
    if number <= last { Some(number) } else { None }
}

/// Parses an offset such as `+01:00` or `-03:30`.
fn offset_of(text: &[u8]) -> Option<Offset> {
    let (sign, rest) = text.split_first()?;
    let [_, _, b':', _, _] = rest else {
        return None;
    };
    let hours = two_digits(&rest[..2], 23)?;
    let minutes = two_digits(&rest[3..], 59)?;
    let seconds = i32::try_from(u32::from(hours) * 3600 + u32::from(minutes) * 60).ok()?;
    match sign {
        b'+' => Offset::from_seconds(seconds).ok(),
        b'-' => Offset::from_seconds(seconds.wrapping_neg()).ok(),
        _ => None,
    }
}

/// Returns whether a byte can be part of the name of a zone.
fn is_name_byte(byte: &u8) -> bool {
    byte.is_ascii_alphanumeric() || matches!(byte, b'_' | b'-' | b'+' | b'/')
}

/// Returns whether text can be the name of a zone: a relative path that doesn't leave its folder.
fn is_zone_name(text: &[u8]) -> bool {
    !text.starts_with(b"/") && text.iter().all(is_name_byte)
}

impl Zone {
    /// Finds the zone with this name: `UTC`, an offset such as `+01:00`, or a zone of the system, such as
    /// `Europe/Berlin`. Returns `None` if no zone has this name, or if the zone's file can't be read or parsed.
    pub fn find<F: Files>(files: &F, alloc: Global, name: &str) -> Option<Zone> {
        if name == "UTC" {
            return Some(Zone::Utc);
        }
        if let Some(offset) = offset_of(name.as_bytes()) {
            return Some(Zone::Fixed(offset));
        }
        if !is_zone_name(name.as_bytes()) {
            return None;
        }
        let path = format!(in alloc; "{FOLDER}{name}").ok()?;
        let file = OpenOptions::new()
            .read(true)
            .open(files, path.as_str())
            .ok()?;
        let mut bytes = Vec::new(alloc);
        file.take(FILE_LIMIT).read_to_end(&mut bytes).ok()?;
        let table = Tzif::parse(alloc, Some(name), bytes.as_slice()).ok()?;
        Some(Zone::System(table))
    }

    /// Returns a date as text in this zone, with the zone's offset at that time (RFC 3339), such as
    /// `2026-11-27T15:03:20.5+01:00`. The text is empty after the year 9999.
    pub fn text(&self, date: Date) -> TimeText {
        let Some(timestamp) = date.timestamp() else {
            return TimeText::new();
        };
        let offset = match self {
            Zone::Utc => return date.text(),
            Zone::Fixed(offset) => *offset,
            Zone::System(table) => TimeZone::tzif(table).to_offset(timestamp),
        };
        let shown = timestamp.display_with_offset(offset);
        let mut text = TimeText::new();
        let _ = text.try_extend_from_slice(shown.as_str().as_bytes());
        text
    }
}
