ghost use Rattle.std.specs.Prelude.{◌≡◌, ◌+◌, ◌≤◌, ◌++◌, length, decimal};
ghost use Rattle.mg_words.specs.Address.{address_text};
ghost use Rattle.mg_service.specs.Title.{title_line, title_text};

use arrayvec::ArrayVec;
use itoa::Buffer;
use mg_core::Config;
use mg_words::{ADDRESS_LIMIT, address_text};

/// The capacity of a title, in bytes: the longest title and a margin.
pub const TITLE_LIMIT: usize = 512;

/// The capacity of a title's line, in bytes.
const LINE_LIMIT: usize = TITLE_LIMIT + 3;

/// The first line of a recording, without the leading `# ` and the line feed.
pub type Title = ArrayVec<u8, TITLE_LIMIT>;

/// The line of a title, as a comment with its line feed.
pub type TitleLine = ArrayVec<u8, LINE_LIMIT>;

/// Appends a string.
fn push_text(title: &mut Title, text: &[u8])
    requires room { length title.old.items + length text.now ≤ TITLE_LIMIT }
    ensures value { title.new.items ≡ title.old.items ++ text.now }
{
    let _ = title.try_extend_from_slice(text);
}

/// Appends an option with an IPv4 address.
fn push_address(title: &mut Title, option: &str, address: [u8; 4])
    requires room { length title.old.items + length option.now + ADDRESS_LIMIT ≤ TITLE_LIMIT }
    ensures value { title.new.items ≡ title.old.items ++ (option.now ++ address_text address) }
    ensures len { length title.new.items ≤ length title.old.items + length option.now + ADDRESS_LIMIT }
{
    push_text(title, option.as_bytes());
    push_text(title, address_text(address).as_slice());
}

/// Appends an option with a number.
fn push_number(title: &mut Title, option: &str, number: u32)
    requires room { length title.old.items + length option.now + 10 ≤ TITLE_LIMIT }
    ensures value { title.new.items ≡ title.old.items ++ (option.now ++ decimal number) }
    ensures len { length title.new.items ≤ length title.old.items + length option.now + 10 }
{
    let mut buffer = Buffer::new();
    push_text(title, option.as_bytes());
    push_text(title, buffer.format(number).as_bytes());
}

/// Returns the title of a recording: the configuration of its gateway, written as options of `mg_bridge replay`.
pub fn title_of(config: &Config) -> Title
    ensures value { result.items ≡ title_text config.now }
{
    let mut title = Title::new();
    push_text(&mut title, b"mg_bridge replay");
    push_address(&mut title, " --address=", config.address);
    push_address(&mut title, " --control-address=", config.control_address);
    push_number(
        &mut title,
        " --control-port=",
        u32::from(config.control_port),
    );
    push_number(&mut title, " --base-port=", u32::from(config.base_port));
    push_number(&mut title, " --slots=", u32::from(config.slots));
    push_number(
        &mut title,
        " --first-termination=",
        config.first_termination,
    );
    push_number(&mut title, " --first-context=", config.first_context);
    push_number(&mut title, " --ssrc=", config.ssrc);
    push_number(&mut title, " --sequence=", u32::from(config.sequence));
    push_number(&mut title, " --timestamp=", config.timestamp);
    title
}

/// Appends bytes to a title's line.
fn push_bytes(line: &mut TitleLine, text: &[u8])
    requires room { length line.old.items + length text.now ≤ LINE_LIMIT }
    ensures value { line.new.items ≡ line.old.items ++ text.now }
{
    let _ = line.try_extend_from_slice(text);
}

/// Returns the first line of a recording or a journal.
pub fn title_line_of(config: &Config) -> TitleLine
    ensures value { result.items ≡ title_line config.now }
{
    let title = title_of(config);
    let mut line = TitleLine::new();
    push_bytes(&mut line, b"# ");
    push_bytes(&mut line, title.as_slice());
    push_bytes(&mut line, b"\n");
    line
}
