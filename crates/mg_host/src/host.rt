use crate::clocks::Clocks;
use crate::dates::Dates;
use crate::journals::Journals;
use crate::sockets::Sockets;
use crate::texts::Texts;

/// The machine that a program runs on.
pub trait Host: Journals + Texts + Sockets + Clocks + Dates {}
