ghost use Rattle.std.specs.Prelude.{◌≡◌};
ghost use Rattle.mg_serve.specs.Lines.{line_command};

use mg_clock::Timing;

/// A command to a gateway.
#[derive(Clone, Copy, Debug, PartialEq, Eq)]
pub enum Command {
    /// Receive the datagrams that arrived at the sockets, at most 64 from each socket.
    Poll,
    /// Advance by 20 ms, and send the packets. If the tick is late, ports on a network don't send them.
    Tick(Timing),
    /// Print the counts.
    Stats,
    /// End the session.
    Quit,
    /// Print that the command is unknown.
    Unknown,
}

impl Command {
    /// Returns the command that a line names. Pass the line without its line feed.
    pub fn of_line(line: &[u8]) -> Command
        ensures value { result ≡ line_command line.now }
    {
        match line {
            b"poll" => Command::Poll,
            b"tick" => Command::Tick(Timing::OnTime),
            b"stats" => Command::Stats,
            b"quit" => Command::Quit,
            _ => Command::Unknown,
        }
    }
}
