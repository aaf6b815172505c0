ghost use Rattle.std.specs.Prelude.{◌≡◌, ◌≤◌, ◌^◌};
ghost use Rattle.mg_words.specs.Limits.{member_limit, context_limit, termination_limit, min_depth, max_depth, first_depth, message_limit, request_limit, command_limit, name_limit, sender_limit, alternative_limit, reply_limit, kept_limit, last_termination, last_context};

/// The maximum number of members in a context.
pub const MEMBER_LIMIT: usize = 64;

/// The maximum number of contexts in a gateway.
pub const CONTEXT_LIMIT: usize = 64;

/// The maximum number of terminations in a gateway.
pub const TERMINATION_LIMIT: usize = 256;

/// The minimum depth of a play list, in frames of 20 ms.
pub const MIN_DEPTH: usize = 2;

/// The maximum depth of a play list, in frames of 20 ms.
pub const MAX_DEPTH: usize = 16;

/// The depth of a new play list, in frames of 20 ms.
pub const FIRST_DEPTH: usize = 4;

/// The number of samples in a frame: 20 ms at 8000 Hz. Its payload has the same number of bytes.
pub const SAMPLES: usize = 160;

/// The duration of a frame, in milliseconds.
pub const FRAME_MS: u16 = 20;

/// The maximum size of a control datagram that is read, in bytes.
pub const MESSAGE_LIMIT: usize = 8192;

/// The maximum number of requests in a message.
pub const REQUEST_LIMIT: usize = 4;

/// The maximum number of commands in a message.
pub const COMMAND_LIMIT: usize = 64;

/// The maximum length, in bytes, of a termination's name, a domain name or a device name.
pub const NAME_LIMIT: usize = 64;

/// The maximum length of a sender's name, in bytes: a domain name in angle brackets, a colon and a five-digit port.
pub const SENDER_LIMIT: usize = 72;

/// The maximum number of alternative descriptions in a descriptor Local or Remote.
pub const ALTERNATIVE_LIMIT: usize = 8;

/// The maximum size of a reply, in bytes.
pub const REPLY_LIMIT: usize = 16000;

/// The maximum number of replies that are kept to answer retransmitted requests.
pub const KEPT_LIMIT: usize = 32;

/// The largest number that a termination can have.
pub const LAST_TERMINATION: u32 = 4294967295;

/// The largest number that a context can have. The next two numbers denote `$` and `*` (RFC 3525, section 6.1.2).
pub const LAST_CONTEXT: u32 = 4294967293;

/// The constants equal the limits in the definitions, and a frame has 160 samples, as the definitions say.
pub fn constants_are_limits()
    ensures members { MEMBER_LIMIT ≡ member_limit }
    ensures contexts { CONTEXT_LIMIT ≡ context_limit }
    ensures terminations { TERMINATION_LIMIT ≡ termination_limit }
    ensures depths { (MIN_DEPTH ≡ min_depth) × (MAX_DEPTH ≡ max_depth) × (FIRST_DEPTH ≡ first_depth) }
    ensures samples { SAMPLES ≡ 160 }
    ensures message { MESSAGE_LIMIT ≡ message_limit }
    ensures requests { REQUEST_LIMIT ≡ request_limit }
    ensures commands { COMMAND_LIMIT ≡ command_limit }
    ensures names { NAME_LIMIT ≡ name_limit }
    ensures senders { SENDER_LIMIT ≡ sender_limit }
    ensures alternatives { ALTERNATIVE_LIMIT ≡ alternative_limit }
    ensures reply { REPLY_LIMIT ≡ reply_limit }
    ensures kept { KEPT_LIMIT ≡ kept_limit }
    ensures numbers { (LAST_TERMINATION ≡ last_termination) × (LAST_CONTEXT ≡ last_context) }
{}

/// What the crates above assume about the limits: the number of a room and that of a slot fit in 8 bits. If the limits
/// allow more than 256 rooms or slots, this proof fails.
pub fn limits_fit()
    ensures rooms { context_limit ≤ 2 ^ 8 }
    ensures slots { termination_limit ≤ 2 ^ 8 }
{}
