//! Properties of all datagrams.
//!
//! The functions do nothing: their contracts are the theorems.

ghost use Rattle.std.specs.Prelude.{◌≡◌, ℕ, List, Option};
ghost use Rattle.mg_scan.specs.declared.fault.ScanFault.{ScanFault};
ghost use Rattle.mg_scan.specs.declared.token.Token.{Token};
ghost use Rattle.mg_text.specs.declared.message.Message.{Message};
ghost use Rattle.mg_text.specs.Message.{AreTokens, IsTree};
ghost use Rattle.mg_text.specs.MessageReading.{MessageReading, IsMessageReading};

use mg_scan::Scanner;

/// A datagram can be parsed into at most one tree.
pub fn one_tree()
    ensures theorem { (source : List ℕ) (m n : Message) → IsTree source m → IsTree source n → m ≡ n }
{}

/// Every datagram consists of tokens, up to its end or a fault.
fn bytes_are_tokens(source: &[u8])
    ensures tokens { (ts : List Token) × (fault : Option ScanFault) × AreTokens source.now ts fault }
{
    let mut scanner = Scanner::new(source);
    loop {
        match scanner.next() {
            Some(Ok(_)) => {}
            Some(Err(_)) => return,
            None => return,
        }
    }
}

/// Each datagram has exactly one reading. It is a message with its tree, a message of another version, a datagram that
/// exceeds a limit, or not a message.
pub fn one_reading(source: &[u8])
    ensures some { (reading : MessageReading) × IsMessageReading source.now reading }
    ensures at_most_one { (bytes : List ℕ) (a b : MessageReading) →
        IsMessageReading bytes a → IsMessageReading bytes b → a ≡ b }
{
    bytes_are_tokens(source);
}
