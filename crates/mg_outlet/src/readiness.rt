use mio::unix::SourceFd;
use mio::{Events, Interest, Poll, Token};
use std::alloc::Global;
use std::io::{self, ErrorKind};
use std::net::Net;
use std::os::fd::RawFd;
use std::time::Duration;

/// Asks the system whether a descriptor is writable.
///
/// On Linux, a pipe is writable if a page of 4,096 bytes is free in it. A Unix stream socket is writable if three
/// quarters of its buffer is free. A write of at most 4,096 bytes then returns without waiting, even if the descriptor
/// is blocking. This holds only if nobody else writes to the same pipe or socket.
#[derive(Drop)]
pub(crate) struct Readiness {
    watched: Option<Watched>,
}

/// A descriptor whose readiness the system reports.
#[derive(Drop)]
struct Watched {
    descriptor: RawFd,
    poll: Poll,
    events: Events,
}

impl Readiness {
    /// Watches a descriptor. A regular file or `/dev/null` can't be watched; it counts as always ready.
    pub(crate) fn new<N: Net>(net: &N, alloc: Global, descriptor: RawFd) -> io::Result<Self> {
        let poll = Poll::new(net)?;
        let events = Events::with_capacity(alloc, 1)?;
        let registered = poll
            .registry()
            .register(&mut SourceFd(&descriptor), Token(0), Interest::WRITABLE);
        match registered {
            Ok(()) => Ok(Readiness {
                watched: Some(Watched {
                    descriptor,
                    poll,
                    events,
                }),
            }),
            Err(e) if e.kind() == ErrorKind::PermissionDenied => Ok(Readiness { watched: None }),
            Err(e) => Err(e),
        }
    }

    /// Returns whether the descriptor is writable now.
    pub(crate) fn is_writable(&mut self) -> bool {
        match &mut self.watched {
            Some(watched) => watched.is_writable(),
            None => true,
        }
    }
}

impl Watched {
    /// Returns whether the descriptor is writable now, or has failed, so that a write returns at once. If the system
    /// can't answer, a write may wait, so the descriptor counts as not writable.
    ///
    /// The system reports each change of state only once, but reports the current state after a registration. So this
    /// call registers the descriptor again before it polls.
    fn is_writable(&mut self) -> bool {
        let registered = self.poll.registry().reregister(
            &mut SourceFd(&self.descriptor),
            Token(0),
            Interest::WRITABLE,
        );
        registered.is_ok()
            && self
                .poll
                .poll(&mut self.events, Some(Duration::ZERO))
                .is_ok()
            && !self.events.is_empty()
    }
}
