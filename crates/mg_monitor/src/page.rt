use crate::delays::Delays;
use std::fmt::Display;
use std::io::{self, Write};

/// Text in Prometheus' format. The names of all metrics begin with `lobbysorrel_`, and every sample has a label that
/// names the gateway.
#[derive(Drop)]
pub struct Page<'a, W: Write> {
    writer: &'a mut W,
    /// The label that names the gateway, without braces.
    gateway: &'a str,
}

impl<'a, W: Write> Page<'a, W> {
    pub fn new(writer: &'a mut W, gateway: &'a str) -> Self {
        Page { writer, gateway }
    }

    /// Begins a metric, whose samples follow.
    pub fn begin(&mut self, name: &str, kind: &str, help: &str) -> io::Result<()> {
        writeln!(self.writer, "# HELP lobbysorrel_{name} {help}")?;
        writeln!(self.writer, "# TYPE lobbysorrel_{name} {kind}")
    }

    /// Writes a sample whose only label names the gateway.
    pub fn sample<V: Display>(&mut self, name: &str, value: &V) -> io::Result<()> {
        let gateway = self.gateway;
        writeln!(self.writer, "lobbysorrel_{name}{{{gateway}}} {value}")
    }

    /// Writes a sample with one more label.
    pub fn sample_for<L: Display, V: Display>(
        &mut self,
        name: &str,
        label: &str,
        text: &L,
        value: &V,
    ) -> io::Result<()> {
        let gateway = self.gateway;
        writeln!(
            self.writer,
            "lobbysorrel_{name}{{{gateway},{label}=\"{text}\"}} {value}"
        )
    }

    /// Writes a gauge that has one sample.
    pub fn gauge<V: Display>(&mut self, name: &str, help: &str, value: &V) -> io::Result<()> {
        self.begin(name, "gauge", help)?;
        self.sample(name, value)
    }

    /// Writes a counter that has one sample.
    pub fn counter(&mut self, name: &str, help: &str, value: u64) -> io::Result<()> {
        self.begin(name, "counter", help)?;
        self.sample(name, &value)
    }

    /// Writes a counter that has a sample for each value of a label.
    pub fn counters(
        &mut self,
        name: &str,
        help: &str,
        label: &str,
        values: &[(&str, u64)],
    ) -> io::Result<()> {
        self.begin(name, "counter", help)?;
        for (text, value) in values {
            self.sample_for(name, label, text, value)?;
        }
        Ok(())
    }

    /// Writes a histogram.
    pub fn histogram(&mut self, name: &str, help: &str, delays: &Delays) -> io::Result<()> {
        self.begin(name, "histogram", help)?;
        delays.write(name, self.gateway, self.writer)
    }
}
