ghost use Rattle.std.specs.Prelude.{◌≡◌};
ghost use Rattle.mg_lines.specs.Lines.{without_return};

/// Returns a line without the carriage return that may end it. Pass the line without its line feed.
pub fn without_return(line: &[u8]) -> &[u8]
    ensures value { result.now ≡ without_return line.now }
{
    match line {
        [front @ .., b'\r'] => front,
        _ => line,
    }
}
