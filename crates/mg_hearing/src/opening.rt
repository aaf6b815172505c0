//! Opens the files of a script.

ghost use Rattle.std.specs.Prelude.{◌∷◌, IfOk, OnOk, map};
ghost use Rattle.std.specs.Io.Buffered.{reader_remaining};
ghost use Rattle.mg_hearing.specs.aids.Opening.{OpensAll, OpensMore};

use mg_host::Texts;
use mg_joined::JoinFault;
use mg_service::FilePath;
use std::alloc::Global;
use std::collections::VecDeque;
use std::io::BufReader;

/// Opens the file at this place of a list, and appends it to the open files.
fn open_next<H: Texts>(
    host: &mut H,
    alloc: Global,
    path: &FilePath,
    files: &mut VecDeque<BufReader<H::Text>>,
) -> Result<(), JoinFault>
    ensures value { OnOk result (OpensMore path.now (H.calls host.old) (H.calls host.new)
        (map (reader_remaining H.Text.remaining) files.old.items)
        (map (reader_remaining H.Text.remaining) files.new.items)) }
{
    let place = files.len();
    let file = match host.open_text(path.as_str()) {
        Ok(file) => file,
        Err(error) => return Err(JoinFault::Open(place, error)),
    };
    let buffered = match BufReader::new(alloc, file) {
        Ok(buffered) => buffered,
        Err(_) => return Err(JoinFault::NoMemory),
    };
    match files.push_back(buffered) {
        Ok(()) => Ok(()),
        Err(_) => Err(JoinFault::NoMemory),
    }
}

/// Opens files, in this order.
pub(crate) fn open_all<H: Texts>(
    host: &mut H,
    alloc: Global,
    path: &FilePath,
    later: &[FilePath],
) -> Result<VecDeque<BufReader<H::Text>>, JoinFault>
    ensures value { IfOk result (λ files. OpensAll (path.now ∷ later.now) (H.calls host.old) (H.calls host.new)
        (map (reader_remaining H.Text.remaining) files.items)) }
{
    let mut files = VecDeque::new(alloc);
    open_next(host, alloc, path, &mut files)?;
    for other in later {
        open_next(host, alloc, other, &mut files)?;
    }
    Ok(files)
}
