ghost use Rattle.std.specs.Prelude.{◌≡◌, ◌+◌, ◌∷◌, [], length, map, IfOk, List};
ghost use Rattle.mg_core.specs.Note.{Note};
ghost use Rattle.mg_core.specs.World.{World};
ghost use Rattle.mg_core.specs.aids.Stands.{StandsFor};
ghost use Rattle.mg_heard.specs.Intervals.{ending};
ghost use Rattle.mg_heard.specs.OpenFlows.{open_flows};
ghost use Rattle.mg_heard.specs.Times.{moment_after, tick_count};
ghost use Rattle.mg_heard.specs.aids.Opening.{ended_at, AreLasting};
ghost use Rattle.mg_heard.specs.aids.Rows.{intervals_of};
ghost use Rattle.mg_heard.specs.aids.Timing.{AreBegun};
ghost use Rattle.mg_heard.specs.declared.open_flow.OpenFlow.{OpenFlow};

use crate::hearer::hearers_of;
use crate::listener_row::ListenerRow;
use crate::moment::Moment;
use crate::rows::Rows;
use mg_core::Core;
use std::alloc::{AllocError, Global};
use std::marker::Model;

/// Intervals that have not ended, ordered by listener, then by talker.
#[derive(Drop)]
pub(crate) struct OpenRows {
    rows: Rows,
}

impl Model for OpenRows {
    ghost use Rattle.std.specs.Prelude.{List};
    ghost use Rattle.mg_heard.specs.aids.Rows.{intervals_of, AreRows};
    ghost use Rattle.mg_heard.specs.declared.open_interval.OpenInterval.{OpenInterval};

    ghost Value = { List OpenInterval };

    ghost view = { λ x. intervals_of x.rows };

    ghost invariant = { λ x. AreRows x.rows };
}

impl OpenRows {
    /// Creates an empty store. No other call allocates.
    pub(crate) fn new(alloc: Global) -> Result<Self, AllocError>
        ensures value { IfOk result (λ x. x ≡ []) }
    {
        Ok(OpenRows {
            rows: Rows::new(alloc)?,
        })
    }

    pub(crate) fn as_slice(&self) -> &[ListenerRow]
        ensures value { intervals_of result.now ≡ self.now }
    {
        self.rows.as_slice()
    }

    /// Advances to a moment. Afterwards, an interval is stored for each flow that is open in the core, and `ended`
    /// holds the intervals that end at this moment.
    pub(crate) fn advance(&mut self, ended: &mut Rows, core: &Core, now: Moment)
        ensures value { (w : World) (past : List (List OpenFlow)) → StandsFor core.now.state w →
            now.tick ≡ length past → AreLasting past self.old →
            AreLasting (open_flows w.gateway ∷ past) self.new
            × (map (ended_at now.tick) (intervals_of ended.new) ≡ ending past (open_flows w.gateway)) }
        ensures begun { (older : List Note) → now ≡ moment_after older → AreBegun older (tick_count older) self.old →
            AreBegun older (tick_count older + 1) self.new × AreBegun older (tick_count older) (intervals_of ended.new) }
    {
        let hearers = hearers_of(core);
        self.rows.advance(ended, hearers.as_slice(), now);
    }
}
