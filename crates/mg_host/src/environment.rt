use crate::host::Host;
use std::fs::Files;
use std::io::{Read, Write};
use std::net::Net;
use std::random::RandomSource;
use std::time::Clock;

/// The types of everything outside a program that it uses: a type that implements this trait chooses them. No value of
/// that type is needed.
pub trait Environment {
    type Net: Net;

    type Clock: Clock;

    type Random: RandomSource;

    type Files: Files;

    type Host: Host + Drop;

    type Input: Read + Drop;

    type Output: Write + Drop;

    type Errors: Write + Drop;

    type Reports: Write + Drop;
}
