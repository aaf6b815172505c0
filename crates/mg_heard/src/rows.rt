ghost use Rattle.std.specs.Prelude.{◌≡◌, ◌≤◌, ◌<◌, ℕ, true, [], get_or, length, map, take, All, IfNone, IfOk, IfSome};
ghost use Rattle.mg_words.specs.Limits.{member_limit, termination_limit};
ghost use Rattle.mg_heard.specs.aids.Hearers.{flows_among, flows_heard, number_of, seats_of, AreRising};
ghost use Rattle.mg_heard.specs.aids.Opening.{beginning_at, continued, without_flows};
ghost use Rattle.mg_heard.specs.aids.Rows.{intervals_of, listeners_of, AreRows};
ghost use Rattle.mg_heard.specs.declared.listener_row.ListenerRow.{ListenerRow};

use crate::hearer::Hearer;
use crate::listener_row::ListenerRow;
use crate::moment::Moment;
use mg_core::TERMINATION_LIMIT;
use std::alloc::{AllocError, Global};
use std::marker::Model;
use std::mem;

/// Listeners with their intervals, in order of the listeners' numbers.
#[derive(Drop)]
pub(crate) struct Rows {
    /// A place for each possible listener. The first `len` places are in use.
    places: Vec<ListenerRow>,
    len: usize,
}

impl Model for Rows {
    ghost use Rattle.std.specs.Prelude.{◌≡◌, ◌≤◌, List, length, take};
    ghost use Rattle.mg_words.specs.Limits.{termination_limit};
    ghost use Rattle.mg_heard.specs.declared.listener_row.ListenerRow.{ListenerRow};

    ghost Value = { List ListenerRow };

    ghost view = { λ x. take x.len x.places.items };

    ghost invariant = { λ x. (length x.places.items ≡ termination_limit) × (x.len ≤ termination_limit) };
}

impl Rows {
    /// Creates an empty store. No other call allocates.
    pub(crate) fn new(alloc: Global) -> Result<Self, AllocError>
        ensures value { IfOk result (λ x. x ≡ []) }
    {
        let mut places = Vec::with_capacity(alloc, TERMINATION_LIMIT)?;
        for _ in 0..TERMINATION_LIMIT {
            places.push(ListenerRow::new(alloc)?)?;
        }
        Ok(Rows { places, len: 0 })
    }

    pub(crate) fn as_slice(&self) -> &[ListenerRow]
        ensures value { result.now ≡ self.now }
    {
        &self.places[..self.len]
    }

    /// Advances to a moment. Afterwards, there is one row per listener, a flow that is still open keeps its beginning,
    /// and `ended` holds only the intervals that have ended.
    ///
    /// If the terminations are unchanged, only rows of listeners whose talkers changed are touched, and `ended` has a row
    /// for each of these listeners.
    pub(crate) fn advance(&mut self, ended: &mut Rows, hearers: &[Hearer], now: Moment)
        requires many { length hearers.now ≤ termination_limit }
        requires few { All (λ h. length (flows_heard (seats_of hearers.now) h) ≤ member_limit) hearers.now }
        requires rising { AreRising hearers.now }
        requires rows { AreRows self.old }
        ensures rows { AreRows self.new }
        ensures value { intervals_of self.new ≡ map (continued (intervals_of self.old))
            (map (beginning_at now) (flows_among hearers.now)) }
        ensures ended { intervals_of ended.new ≡ without_flows (flows_among hearers.now) (intervals_of self.old) }
    {
        if are_same(self.as_slice(), hearers) {
            let len = self.len;
            ended.len = renew_front(&mut self.places, len, &mut ended.places, hearers, now);
            return;
        }
        mem::swap(self, ended);
        self.replace(ended, hearers, now);
    }

    /// Replaces all rows with one row per listener. A flow that is still open keeps its beginning from `old`; only the
    /// intervals that have ended remain in `old`.
    fn replace(&mut self, old: &mut Rows, hearers: &[Hearer], now: Moment)
        requires many { length hearers.now ≤ termination_limit }
        requires few { All (λ h. length (flows_heard (seats_of hearers.now) h) ≤ member_limit) hearers.now }
        requires rising { AreRising hearers.now }
        requires rows { AreRows old.old }
        ensures rows { AreRows self.new }
        ensures value { intervals_of self.new ≡ map (continued (intervals_of old.old))
            (map (beginning_at now) (flows_among hearers.now)) }
        ensures ended { intervals_of old.new ≡ without_flows (flows_among hearers.now) (intervals_of old.old) }
    {
        advance_front(&mut self.places, &mut old.places, old.len, hearers, now);
        self.len = hearers.len();
    }
}

/// Returns whether the rows belong to exactly these terminations, regardless of who hears whom.
fn are_same(rows: &[ListenerRow], hearers: &[Hearer]) -> bool
    ensures value { result ≡ true → seats_of (listeners_of rows.now) ≡ seats_of hearers.now }
{
    if rows.len() != hearers.len() {
        return false;
    }
    for place in 0..rows.len() {
        if !rows[place].listener.seated.is_same(&hearers[place].seated) {
            return false;
        }
    }
    true
}

/// Returns the place of a listener's row, or `None` if the listener has no row. The search begins at a place that is
/// likely.
fn place_of(rows: &[ListenerRow], number: u32, likely: usize) -> Option<usize>
    ensures some { IfSome result (λ place. (place < length rows.now)
        × ((d : ListenerRow) → number_of (get_or rows.now place d).listener ≡ number)) }
    ensures none { IfNone result ((place : ℕ) (d : ListenerRow) → place < length rows.now →
        number_of (get_or rows.now place d).listener ≡ number → ⊥) }
{
    if likely < rows.len() && rows[likely].listener.seated.party.number == number {
        return Some(likely);
    }
    for place in 0..rows.len() {
        if rows[place].listener.seated.party.number == number {
            return Some(place);
        }
    }
    None
}

/// Fills the first places with one row per listener. A flow that is still open keeps its beginning from the first `len`
/// rows of `old`; only the intervals that have ended remain there.
fn advance_front(
    rows: &mut [ListenerRow],
    old: &mut [ListenerRow],
    len: usize,
    hearers: &[Hearer],
    now: Moment,
)
    requires within { len ≤ length old.old }
    requires room { length hearers.now ≤ length rows.old }
    requires few { All (λ h. length (flows_heard (seats_of hearers.now) h) ≤ member_limit) hearers.now }
    requires rising { AreRising hearers.now }
    requires rows { AreRows (take len old.old) }
    ensures rows { AreRows (take (length hearers.now) rows.new) }
    ensures value { intervals_of (take (length hearers.now) rows.new) ≡
        map (continued (intervals_of (take len old.old))) (map (beginning_at now) (flows_among hearers.now)) }
    ensures ended { intervals_of (take len old.new) ≡
        without_flows (flows_among hearers.now) (intervals_of (take len old.old)) }
{
    advance_rows(rows, &mut old[..len], hearers, now);
}

/// Fills the first places with one row per listener. A flow that is still open keeps its beginning from `old`; only the
/// intervals that have ended remain there.
fn advance_rows(rows: &mut [ListenerRow], old: &mut [ListenerRow], hearers: &[Hearer], now: Moment)
    requires room { length hearers.now ≤ length rows.old }
    requires few { All (λ h. length (flows_heard (seats_of hearers.now) h) ≤ member_limit) hearers.now }
    requires rising { AreRising hearers.now }
    requires rows { AreRows old.old }
    ensures rows { AreRows (take (length hearers.now) rows.new) }
    ensures value { intervals_of (take (length hearers.now) rows.new) ≡ map (continued (intervals_of old.old))
        (map (beginning_at now) (flows_among hearers.now)) }
    ensures ended { intervals_of old.new ≡ without_flows (flows_among hearers.now) (intervals_of old.old) }
{
    for (place, hearer) in hearers.iter().enumerate() {
        match place_of(old, hearer.seated.party.number, place) {
            Some(earlier) => rows[place].advance(&mut old[earlier], hearers, hearer, now),
            None => rows[place].start(hearers, hearer, now),
        }
    }
}

/// Replaces, among the first `len` rows, those of listeners whose talkers changed. Puts the intervals that have ended
/// into the first rows of `ended`, and returns the number of these rows.
fn renew_front(
    rows: &mut [ListenerRow],
    len: usize,
    ended: &mut [ListenerRow],
    hearers: &[Hearer],
    now: Moment,
) -> usize
    requires within { len ≤ length rows.old }
    requires room { length hearers.now ≤ length ended.old }
    requires few { All (λ h. length (flows_heard (seats_of hearers.now) h) ≤ member_limit) hearers.now }
    requires rising { AreRising hearers.now }
    requires rows { AreRows (take len rows.old) }
    requires same { seats_of (listeners_of (take len rows.old)) ≡ seats_of hearers.now }
    ensures within { result ≤ length hearers.now }
    ensures rows { AreRows (take len rows.new) }
    ensures value { intervals_of (take len rows.new) ≡ map (continued (intervals_of (take len rows.old)))
        (map (beginning_at now) (flows_among hearers.now)) }
    ensures ended { intervals_of (take result ended.new) ≡
        without_flows (flows_among hearers.now) (intervals_of (take len rows.old)) }
{
    renew_rows(&mut rows[..len], ended, hearers, now)
}

/// Replaces the rows of listeners whose talkers changed. Puts the intervals that have ended into the first rows of
/// `ended`, and returns the number of these rows.
fn renew_rows(
    rows: &mut [ListenerRow],
    ended: &mut [ListenerRow],
    hearers: &[Hearer],
    now: Moment,
) -> usize
    requires room { length hearers.now ≤ length ended.old }
    requires few { All (λ h. length (flows_heard (seats_of hearers.now) h) ≤ member_limit) hearers.now }
    requires rising { AreRising hearers.now }
    requires rows { AreRows rows.old }
    requires same { seats_of (listeners_of rows.old) ≡ seats_of hearers.now }
    ensures within { result ≤ length hearers.now }
    ensures rows { AreRows rows.new }
    ensures value { intervals_of rows.new ≡ map (continued (intervals_of rows.old))
        (map (beginning_at now) (flows_among hearers.now)) }
    ensures ended { intervals_of (take result ended.new) ≡
        without_flows (flows_among hearers.now) (intervals_of rows.old) }
{
    let mut changed = 0;
    for (place, hearer) in hearers.iter().enumerate() {
        if rows[place].listener.talkers != hearer.talkers {
            rows[place].renew(&mut ended[changed], hearers, hearer, now);
            changed += 1;
        }
    }
    changed
}
