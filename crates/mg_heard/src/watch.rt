ghost use Rattle.std.specs.Prelude.{◌≡◌, [], false, IfOk, None, Option};
ghost use Rattle.std.specs.Option.{option_map, option_or};
ghost use Rattle.mg_core.specs.World.{World};
ghost use Rattle.mg_core.specs.aids.Stands.{StandsFor};
ghost use Rattle.mg_heard.specs.Never.{without_date};
ghost use Rattle.mg_heard.specs.OpenFlows.{open_flows};
ghost use Rattle.mg_heard.specs.aids.Opening.{flows_of};
ghost use Rattle.mg_heard.specs.aids.Watching.{KeepsRules, forbidden_at, forbidden_in};

use crate::changes::only_control_changes_flows;
use crate::clock::Clock;
use crate::clock_fault::ClockFault;
use crate::moment::Moment;
use crate::open_flow::OpenFlow;
use crate::open_interval::OpenInterval;
use crate::open_intervals::OpenIntervals;
use crate::rule::{Rule, is_forbidden};
use crate::violation::Violation;
use mg_core::{Core, Event, Follower, Stopped, Watcher};
use std::alloc::{AllocError, Global};

/// Follows who can hear whom, until a rule is broken.
#[derive(Drop)]
pub(crate) struct Watch<'a> {
    pub(crate) rules: &'a [Rule],
    pub(crate) clock: Clock,
    /// The reason why the follower stopped, or `None` if it has not stopped.
    pub(crate) fault: Option<ClockFault>,
    /// Whether the open flows may have changed since they were last compared with the rules.
    pub(crate) is_changed: bool,
    /// The flows that were open when they were last compared with the rules.
    open: OpenIntervals,
    /// The first violation. The follower ignores everything after it.
    pub(crate) violation: Option<Violation>,
}

/// Returns the first flow that a rule forbids.
fn forbidden_among(intervals: &[OpenInterval], rules: &[Rule]) -> Option<OpenFlow>
    ensures value { result ≡ forbidden_in rules.now (flows_of intervals.now) }
{
    for interval in intervals {
        if is_forbidden(rules, &interval.flow) {
            return Some(interval.flow);
        }
    }
    None
}

/// Returns the first open flow that a rule forbids. `open` is overwritten.
fn violation_in(
    open: &mut OpenIntervals,
    core: &Core,
    rules: &[Rule],
    at: Moment,
) -> Option<Violation>
    ensures value { (w : World) → StandsFor core.now.state w →
        option_map without_date result ≡ forbidden_at at.tick rules.now (open_flows w.gateway) }
{
    open.fill(core, at);
    let flow = forbidden_among(open.as_slice(), rules)?;
    Some(Violation { flow, at })
}

impl<'a> Watch<'a> {
    /// Creates a follower at the beginning of a script. No other call allocates.
    pub(crate) fn new(alloc: Global, rules: &'a [Rule]) -> Result<Self, AllocError>
        ensures start { (base : World) → IfOk result (λ w.
            KeepsRules rules.now base [] w.clock.ticks w.is_changed w.violation) }
        ensures rules { IfOk result (λ w. w.rules.now ≡ rules.now) }
    {
        Ok(Watch {
            rules,
            clock: Clock::new(),
            fault: None,
            is_changed: true,
            open: OpenIntervals::new(alloc)?,
            violation: None,
        })
    }

    /// Compares the flows that are open in a core with the rules, if those flows may have changed and no rule was
    /// broken before.
    pub(crate) fn compare(&mut self, core: &Core)
        ensures value { (w : World) → StandsFor core.now.state w →
            (self.old.is_changed ≡ false → self.old.violation ≡ None →
            forbidden_in self.old.rules.now (open_flows w.gateway) ≡ None) →
            option_map without_date self.new.violation ≡ option_or (option_map without_date self.old.violation)
            (forbidden_at self.old.clock.ticks self.old.rules.now (open_flows w.gateway)) }
        ensures clock { self.new.clock ≡ self.old.clock }
        ensures rules { self.new.rules.now ≡ self.old.rules.now }
    {
        if self.is_changed && self.violation.is_none() {
            let now = self.clock.now();
            self.violation = violation_in(&mut self.open, core, self.rules, now);
            self.is_changed = false;
        }
    }
}

impl Follower for Watch<'_> {
    ghost use Rattle.std.specs.Prelude.{◌≡◌, true};
    ghost use Rattle.mg_heard.specs.aids.Watching.{KeepsRules};

    ghost may_stop = { true };

    ghost follows = { λ start w base notes. (w.rules.now ≡ start.rules.now)
        × KeepsRules start.rules.now base notes w.clock.ticks w.is_changed w.violation };

    fn comment(&mut self, number: u64, line: &[u8]) -> Result<(), Stopped> {
        if self.violation.is_some() {
            return Ok(());
        }
        match self.clock.pass_comment(number, line) {
            Ok(_) => Ok(()),
            Err(fault) => {
                self.fault = Some(fault);
                Err(Stopped)
            }
        }
    }

    fn datagram(&mut self, event: &Event, _core: &Core) -> Result<(), Stopped> {
        mg_core::theorems::outcomes_are_unique();
        only_control_changes_flows();
        if let Event::Control(_, _) = event {
            self.is_changed = true;
        }
        Ok(())
    }

    fn ticks(&mut self, core: &Core, count: u64) -> Result<(), Stopped> {
        mg_core::theorems::outcomes_are_unique();
        only_control_changes_flows();
        if count == 0 {
            return Ok(());
        }
        self.compare(core);
        if self.violation.is_some() {
            return Ok(());
        }
        match self.clock.pass_ticks(count) {
            Ok(_) => Ok(()),
            Err(fault) => {
                self.fault = Some(fault);
                Err(Stopped)
            }
        }
    }
}

impl Watcher for Watch<'_> {
    ghost use Rattle.std.specs.Prelude.{is_some};

    ghost done = { λ w. is_some w.violation };

    fn is_done(&self) -> bool {
        self.violation.is_some()
    }
}
