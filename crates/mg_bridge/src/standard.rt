use crate::machine::SystemHost;
use mg_host::Environment;
use mg_program::Ahead;
use std::io::{Stdin, Write};
use std::marker::PhantomData;

/// The operating system as a program's environment. Output goes to an `O`; errors and reports go to an `E`.
pub struct Standard<'a, O, E> {
    of: PhantomData<(&'a HostRuntime, O, E)>,
}

impl<'a, O: Write + Drop, E: Write + Drop> Environment for Standard<'a, O, E> {
    type Net = HostRuntime;

    type Clock = HostRuntime;

    type Random = HostRuntime;

    type Files = HostRuntime;

    type Host = SystemHost<'a, HostRuntime>;

    type Input = Ahead<Stdin>;

    type Output = O;

    type Errors = E;

    type Reports = E;
}
