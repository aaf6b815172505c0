use mg_core::{Core, Taken};
use mg_serve::{Monitor, TickReport};

/// Two monitors of one server. The second monitor is optional.
#[derive(Drop)]
pub struct Both<A: Monitor + Drop, B: Monitor + Drop> {
    pub first: A,
    pub second: Option<B>,
}

impl<A: Monitor + Drop, B: Monitor + Drop> Monitor for Both<A, B> {
    fn begin_poll(&mut self) {
        self.first.begin_poll();
        if let Some(second) = &mut self.second {
            second.begin_poll();
        }
    }

    fn count_stranger(&mut self, socket: u16) {
        self.first.count_stranger(socket);
        if let Some(second) = &mut self.second {
            second.count_stranger(socket);
        }
    }

    fn count_media(&mut self, socket: u16, bytes: &[u8], taken: Taken) {
        self.first.count_media(socket, bytes, taken);
        if let Some(second) = &mut self.second {
            second.count_media(socket, bytes, taken);
        }
    }

    fn begin_tick(&mut self, core: &Core) {
        self.first.begin_tick(core);
        if let Some(second) = &mut self.second {
            second.begin_tick(core);
        }
    }

    fn end_tick(&mut self, report: &TickReport<'_>) {
        self.first.end_tick(report);
        if let Some(second) = &mut self.second {
            second.end_tick(report);
        }
    }
}
