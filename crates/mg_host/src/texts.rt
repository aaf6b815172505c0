ghost use Rattle.mg_host.specs.declared.host_call.HostCall.TheVariants.{OpenText};
ghost use Rattle.mg_host.specs.HostCalls.{OpensFile};

use crate::tells::Tells;
use std::io::{self, Read};

/// A host that opens files to be read.
pub trait Texts: Tells {
    /// An open file, which is read from its beginning.
    type Text: Read + Drop;

    /// Opens a file to be read.
    fn open_text(&mut self, path: &str) -> io::Result<Self::Text>
        ensures opened { OpensFile (OpenText path.now) Self.Text.remaining (Self.calls self.old) (Self.calls self.new) result };
}
