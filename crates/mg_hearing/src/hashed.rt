ghost use Rattle.std.specs.Prelude.{◌≡◌, take, Some, IfSome};
ghost use Rattle.std.specs.Io.KnownBytes.{IsAtEnd};
ghost use Rattle.mg_hearing.specs.Page.{IsDigest};
ghost use Rattle.mg_hearing.specs.aids.Hashing.{IsHashed};

use crate::digest::Digest;
use crate::text_key::TextKey;
use mg_chain::Chain;
use std::fs::{Files, OpenOptions};
use std::io::{self, ErrorKind, Read};
use std::marker::{Brand, PhantomData};

/// A reader that hashes the bytes that it returns.
#[derive(Drop)]
pub(crate) struct Hashed<R: Read, K: TextKey> {
    pub(crate) inner: R,
    chain: Chain,
    length: u64,
    of: PhantomData<K>,
    ghost hashed: { IsHashed K.text (R.remaining inner) chain },
}

impl<R: Read, K: TextKey> Hashed<R, K> {
    /// Creates a reader that returns and hashes the remaining bytes of another reader.
    pub(crate) fn new(inner: R) -> Self
        requires text { IfSome K.text (λ text. R.remaining inner ≡ Some text) }
        ensures inner { result.inner ≡ inner }
    {
        Hashed {
            inner,
            chain: Chain::new(),
            length: 0,
            of: PhantomData,
        }
    }

    /// Returns the length and the SHA-256 of the bytes so far.
    pub(crate) fn digest(&self) -> Digest
        ensures whole { IsAtEnd (R.remaining self.now.inner) → IsDigest K.text (take 64 result.end) }
    {
        Digest {
            length: self.length,
            end: self.chain.seal_end(),
        }
    }
}

impl<R: Read, K: TextKey> Read for Hashed<R, K> {
    ghost remaining = { λ h. R.remaining h.inner };

    fn read(&mut self, buffer: &mut [u8]) -> io::Result<usize> {
        match self.inner.read(buffer) {
            Ok(n) => {
                self.chain.extend(&buffer[..n]);
                self.length = self.length.saturating_add(n as u64);
                Ok(n)
            }
            Err(error) => Err(error),
        }
    }
}

/// Reads to the end. Returns the digest, or `None` if a read fails.
fn digest_to_end<R: Read>(reader: &mut Hashed<R, Brand>) -> Option<Digest> {
    let mut buffer = [0; 4096];
    for _ in 0..u64::MAX {
        match reader.read(&mut buffer) {
            Ok(0) => return Some(reader.digest()),
            Ok(_) => {}
            Err(error) if error.kind() == ErrorKind::Interrupted => {}
            Err(_) => return None,
        }
    }
    None
}

/// Returns the digest of the running program, or `None` if the program's file can't be read.
pub(crate) fn program_digest<F: Files>(files: &F) -> Option<Digest> {
    match OpenOptions::new().read(true).open(files, "/proc/self/exe") {
        Ok(file) => {
            let mut reader = Hashed::<_, Brand>::new(file);
            digest_to_end(&mut reader)
        }
        Err(_) => None,
    }
}
