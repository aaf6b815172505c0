ghost use Rattle.std.specs.Prelude.{◌≡◌, ℕ, ◌+◌, ◌*◌, ◌^◌, ◌<◌, ◌≤◌, ◌+ℤ◌, ◌-ℤ◌, [], unsigned_abs, length, All, replicate, slice_set, Some, None, IfOk, IsTrue};
ghost use Rattle.std.specs.Option.{option_copied};
ghost use Rattle.mg_words.specs.Limits.{context_limit, termination_limit};
ghost use Rattle.mg_g711.specs.Frame.{IsFrame};
ghost use Rattle.mg_sums.specs.Samples.{sample, sum_of, silence, frame_or_silence};
ghost use Rattle.mg_sums.specs.Sums.{sample_in, left_out_by};
ghost use Rattle.mg_sums.specs.aids.Sums.{work_after, frame_calls};
ghost use Rattle.mg_sums.specs.aids.Totals.{total_limit, AreNear};

use crate::room::Room;
use crate::row::Row;
use crate::rows::{FrameRow, SumRow};
use mg_g711::Frame;
use mg_words::{CONTEXT_LIMIT, TERMINATION_LIMIT};
use std::alloc::{AllocError, Global};
use std::marker::Model;

/// The frames of all rows, the rooms that the rows are joined to, and a total for each room.
///
/// In contracts, they appear as the record `SumsState` from `specs/Sums.antt`. The record has no totals: an invariant
/// says that each stored total is the sum of its room's frames.
#[derive(Drop)]
pub struct Sums {
    frames: Vec<FrameRow>,
    rooms: [Option<Room>; TERMINATION_LIMIT],
    totals: Vec<SumRow>,
    // Scratch space for the sums of a mix.
    rest: SumRow,
    work: u32,
}

impl Model for Sums {
    ghost use Rattle.mg_sums.specs.Sums.{SumsState};

    ghost Value = { SumsState };

    ghost use Rattle.mg_sums.specs.aids.Totals.{AreTotals};

    ghost view = { λ s. record { frames = s.frames.items; rooms = s.rooms; work = s.work } };

    ghost invariant = { λ s.
        AreTotals
        (record { frames = s.frames.items; rooms = s.rooms; work = s.work })
        s.totals.items };
}

impl Sums {
    ghost use Rattle.mg_sums.specs.Sums.{mix_of, heard_of, AreOfRoom};
    ghost use Rattle.mg_sums.specs.aids.Sums.{first_sums, frame_of_row, room_of, total_of, AreValidSums};

    /// Creates silent rows that aren't joined to any room.
    ///
    /// Fails only if an allocation fails. No other call allocates.
    pub fn new(alloc: Global) -> Result<Self, AllocError>
        ensures first { IfOk result (λ sums. sums ≡ first_sums) }
        ensures nowhere { IfOk result (λ sums. (row : ℕ) → room_of sums row ≡ None) }
        ensures valid { IfOk result (λ sums. AreValidSums sums) }
    {
        Ok(Sums {
            frames: silent_frames(alloc)?,
            rooms: [None; TERMINATION_LIMIT],
            totals: zero_totals(alloc)?,
            rest: SumRow::new(),
            work: 0,
        })
    }

    /// Joins a row to a room. The row must not be joined to any room yet. Its frame then counts toward the room's
    /// total.
    pub fn join(&mut self, room: Room, row: Row)
        requires free { room_of self.old row ≡ None }
        ensures joined { self.new ≡ record self.old {
          rooms = slice_set self.old.rooms row (Some room);
          work = work_after 1 self.old.work;
        } }
        ensures valid { AreValidSums self.new }
    {
        self.rooms[row.number()] = Some(room);
        let frame = &self.frames[row.number()];
        self.totals[room.number()].add(frame, &mut self.work);
    }

    /// Removes a row from its room, and the row's frame from the room's total.
    pub fn leave(&mut self, room: Room, row: Row)
        requires joined { room_of self.old row ≡ Some room }
        ensures left { self.new ≡ record self.old {
          rooms = slice_set self.old.rooms row None;
          work = work_after 1 self.old.work;
        } }
        ensures valid { AreValidSums self.new }
    {
        self.rooms[row.number()] = None;
        let frame = &self.frames[row.number()];
        self.totals[room.number()].take(frame, &mut self.work);
    }

    /// Sets the frame of a row; `None` is silence.
    ///
    /// If the row is joined, its old frame is subtracted from the total, and the new frame is added.
    pub fn set_frame(&mut self, row: Row, frame: Option<&Frame>)
        ensures set { self.new ≡ record self.old {
          frames = slice_set self.old.frames row (frame_or_silence (option_copied frame.entry));
          work = work_after (frame_calls (room_of self.old row)) self.old.work;
        } }
        ensures valid { AreValidSums self.new }
    {
        let new = FrameRow::new(frame);
        if let Some(room) = self.room(row) {
            let old = &self.frames[row.number()];
            self.totals[room.number()].replace(old, &new, &mut self.work);
        }
        self.frames[row.number()] = new;
    }

    /// Returns what a listener hears in a room: the total minus the base and the rows of `minus`, saturated once.
    ///
    /// The base is the listener's own row, or `None` if the listener does not talk. `minus` lists the rows that are
    /// silenced for the listener. All these rows must be joined to the room, and no two may be the same.
    pub fn mix(&mut self, room: Room, base: Option<Row>, minus: &[Row]) -> Frame
        requires rows { AreOfRoom self.old.rooms room (left_out_by base minus.now) }
        ensures mix { result ≡ mix_of self.old room (left_out_by base minus.now) }
        ensures heard { (i : ℕ) → total_of self.old room i
            ≡ sum_of (sample_in self.old.frames i) (left_out_by base minus.now)
            +ℤ heard_of self.old room (left_out_by base minus.now) i }
        ensures kept { self.new ≡ record self.old {
          work = work_after (1 + length minus.now) self.old.work;
        } }
    {
        let total = &self.totals[room.number()];
        let frames = self.frames.as_slice();
        write_rest(&mut self.rest, total, frames, base, minus, &mut self.work);
        self.rest.limited()
    }

    /// Returns sample `i` of a room's total, without saturation.
    ///
    /// Its magnitude is at most 32768 times the maximum number of terminations.
    pub fn total(&self, room: Room, i: usize) -> &i32
        requires { i < 160 }
        ensures value { result.now ≡ total_of self.now room i }
        ensures near { unsigned_abs (total_of self.now room i) ≤ termination_limit * 32768 }
    {
        self.totals[room.number()].sum(i)
    }

    /// Returns the frame that was last set for a row, or silence if none was set.
    pub fn frame(&self, row: Row) -> &Frame
        ensures value { result.now ≡ frame_of_row self.now row }
        ensures frame { IsFrame result.now }
    {
        self.frames[row.number()].frame()
    }

    /// Returns whether a row is known to be silent: it was last set to `None`, or never set.
    pub fn is_silent(&self, row: Row) -> bool
        ensures value { IsTrue result → frame_of_row self.now row ≡ silence }
    {
        self.frames[row.number()].is_silent()
    }

    /// Returns the room that a row is joined to, or `None` if the row isn't joined to any room.
    pub fn room(&self, row: Row) -> Option<Room>
        ensures value { result ≡ room_of self.now row }
        ensures valid { AreValidSums self.now }
    {
        self.rooms[row.number()]
    }

    /// Returns how often a row was added or subtracted, modulo 2^32. A mix without a base counts as one subtraction.
    pub fn work(&self) -> u32
        ensures { result ≡ self.now.work }
    {
        self.work
    }
}

/// Writes a total minus the rows that are left out.
fn write_rest(
    rest: &mut SumRow,
    total: &SumRow,
    frames: &[FrameRow],
    base: Option<Row>,
    minus: &[Row],
    work: &mut u32,
)
    requires near { AreNear total_limit total.now }
    requires frames { (length frames.now ≡ termination_limit) × All IsFrame frames.now }
    requires few { length minus.now ≤ termination_limit }
    ensures sums { (i : ℕ) → i < 160 →
        sample rest.new i
        ≡ sample total.now i -ℤ sum_of (sample_in frames.now i) (left_out_by base minus.now) }
    ensures work { work.new ≡ work_after (1 + length minus.now) work.old }
{
    write_without(rest, total, frames, base, work);
    for row in minus {
        rest.take(&frames[row.number()], work);
    }
}

/// Writes a total, minus the base row if a base is given.
fn write_without(
    rest: &mut SumRow,
    total: &SumRow,
    frames: &[FrameRow],
    base: Option<Row>,
    work: &mut u32,
)
    requires near { AreNear total_limit total.now }
    requires frames { (length frames.now ≡ termination_limit) × All IsFrame frames.now }
    ensures sums { (i : ℕ) → i < 160 →
        sample rest.new i
        ≡ sample total.now i -ℤ sum_of (sample_in frames.now i) (left_out_by base []) }
    ensures near { AreNear (total_limit + 32768) rest.new }
    ensures work { work.new ≡ work_after 1 work.old }
{
    match base {
        Some(row) => rest.write_difference(total, &frames[row.number()], work),
        None => rest.write_difference(total, &FrameRow::new(None), work),
    }
}

fn silent_frames(alloc: Global) -> Result<Vec<FrameRow>, AllocError>
    ensures { IfOk result (λ frames. frames.items ≡ replicate termination_limit silence) }
{
    let mut frames = Vec::new(alloc);
    for _row in 0..TERMINATION_LIMIT {
        frames.push(FrameRow::new(None))?;
    }
    Ok(frames)
}

fn zero_totals(alloc: Global) -> Result<Vec<SumRow>, AllocError>
    ensures { IfOk result (λ totals. totals.items ≡ replicate context_limit silence) }
{
    let mut totals = Vec::new(alloc);
    for _room in 0..CONTEXT_LIMIT {
        totals.push(SumRow::new())?;
    }
    Ok(totals)
}
