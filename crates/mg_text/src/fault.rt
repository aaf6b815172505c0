use std::alloc::{AllocError, AllocFailed};

/// Why reading a datagram as a message failed.
#[derive(Clone, Copy, Debug, PartialEq, Eq)]
pub enum ReadFault {
    /// The bytes do not follow the grammar. The fault was found at this offset, in bytes.
    Syntax(usize),
    /// The head names a version of the protocol other than 1.
    Version(u8),
    /// The datagram exceeds 8192 bytes, or its message has more than 4 requests or more than 64 commands in total.
    TooMany,
    /// Memory ran out. Reading the same datagram later may succeed.
    NoMemory,
}

impl From<AllocError> for ReadFault {
    ghost use Rattle.std.specs.Prelude.{◌≡◌};
    ghost use Rattle.mg_text.specs.declared.fault.ReadFault.TheVariants.{NoMemory};

    ghost from_gives = { λ _ e. e ≡ NoMemory };

    fn from(_value: AllocError) -> Self {
        ReadFault::NoMemory
    }
}

impl<T: Drop> From<AllocFailed<T>> for ReadFault {
    ghost use Rattle.std.specs.Prelude.{◌≡◌};
    ghost use Rattle.mg_text.specs.declared.fault.ReadFault.TheVariants.{NoMemory};

    ghost from_gives = { λ _ e. e ≡ NoMemory };

    fn from(_value: AllocFailed<T>) -> Self {
        ReadFault::NoMemory
    }
}
