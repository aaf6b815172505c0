//! The rows of a mixer, and the operations on them, which count the rows that they add or subtract.
//!
//! The fields of a row are private to this module.

ghost use Rattle.std.specs.Prelude.{◌≡◌, ℕ, ◌+◌, ◌%◌, ◌^◌, ◌<◌, ◌+ℤ◌, ◌-ℤ◌, pos, length, replicate, IsTrue};
ghost use Rattle.std.specs.Option.{option_copied};
ghost use Rattle.mg_g711.specs.Frame.{IsFrame};
ghost use Rattle.mg_sums.specs.Samples.{sample, nearest_sample, silence, frame_or_silence};
ghost use Rattle.mg_sums.specs.aids.Sums.{work_after};
ghost use Rattle.mg_sums.specs.aids.Totals.{AreNear};

use crate::kernels;
use mg_g711::Frame;
use mg_g711::theorems::frames_are_whole;
use mg_words::SAMPLES;
use std::marker::Model;

/// The samples of a frame, or of a mix.
#[derive(Drop)]
pub struct FrameRow {
    samples: Frame,
    /// Whether the samples are known to be all 0.
    is_silent: bool,
}

impl Model for FrameRow {
    ghost use Rattle.std.specs.Prelude.{◌≡◌, ℤ, List, IsTrue};
    ghost use Rattle.mg_sums.specs.Samples.{silence};

    ghost Value = { List ℤ };

    ghost view = { λ row. row.samples };

    ghost invariant = { λ row. IsTrue row.is_silent → row.samples ≡ silence };
}

/// Sums for a row of samples: a room's total, or a total minus some rows.
#[derive(Drop)]
pub struct SumRow {
    sums: [i32; SAMPLES],
}

impl Model for SumRow {
    ghost use Rattle.std.specs.Prelude.{ℤ, List};

    ghost Value = { List ℤ };

    ghost view = { λ row. row.sums };
}

/// Counts an addition or a subtraction.
fn count(work: &mut u32)
    ensures { work.new ≡ work_after 1 work.old }
{
    *work = work.wrapping_add(1);
}

impl FrameRow {
    /// Returns the row of a frame, or a silent row for `None`.
    pub fn new(frame: Option<&Frame>) -> Self
        ensures value { result ≡ frame_or_silence (option_copied frame.entry) }
        ensures frame { IsFrame result }
    {
        match frame {
            Some(frame) => FrameRow::of(*frame),
            None => FrameRow::silent(),
        }
    }

    /// Returns the row of a frame.
    fn of(samples: Frame) -> Self
        ensures value { result ≡ samples }
        ensures frame { IsFrame result }
    {
        frames_are_whole(&samples);
        FrameRow {
            samples,
            is_silent: false,
        }
    }

    /// Returns a silent row.
    fn silent() -> Self
        ensures value { result ≡ silence }
        ensures frame { IsFrame result }
    {
        let samples = [0; SAMPLES];
        frames_are_whole(&samples);
        FrameRow {
            samples,
            is_silent: true,
        }
    }

    /// Returns whether the row is known to be silent.
    pub fn is_silent(&self) -> bool
        ensures value { IsTrue result → self.now ≡ silence }
    {
        self.is_silent
    }

    /// Returns the samples.
    pub fn frame(&self) -> &Frame
        ensures { result.now ≡ self.now }
    {
        &self.samples
    }
}

impl SumRow {
    /// Returns a row of 160 zeros.
    pub fn new() -> Self
        ensures { result ≡ replicate 160 (pos 0) }
    {
        SumRow { sums: [0; SAMPLES] }
    }

    /// Returns the sum at an index.
    pub fn sum(&self, i: usize) -> &i32
        requires { i < 160 }
        ensures { result.now ≡ sample self.now i }
    {
        &self.sums[i]
    }

    /// Returns the sums, each saturated to 16 bits.
    pub fn limited(&self) -> Frame
        ensures limits { (i : ℕ) → i < 160 →
            sample result i ≡ nearest_sample (sample self.now i) }
        ensures long { length result ≡ 160 }
    {
        let mut samples = [0; SAMPLES];
        kernels::limit(&mut samples, &self.sums);
        samples
    }

    /// Adds a row.
    pub fn add(&mut self, row: &FrameRow, work: &mut u32)
        requires near { AreNear (2 ^ 30) self.old }
        ensures sums { (i : ℕ) → i < 160 →
            sample self.new i ≡ sample self.old i +ℤ sample row.now i }
        ensures work { work.new ≡ work_after 1 work.old }
    {
        count(work);
        frames_are_whole(&row.samples);
        kernels::add_row(&mut self.sums, &row.samples);
    }

    /// Subtracts a row.
    pub fn take(&mut self, row: &FrameRow, work: &mut u32)
        requires near { AreNear (2 ^ 30) self.old }
        ensures sums { (i : ℕ) → i < 160 →
            sample self.new i ≡ sample self.old i -ℤ sample row.now i }
        ensures work { work.new ≡ work_after 1 work.old }
    {
        count(work);
        frames_are_whole(&row.samples);
        kernels::take_row(&mut self.sums, &row.samples);
    }

    /// Subtracts one row and adds another, in one pass.
    pub fn replace(&mut self, old: &FrameRow, new: &FrameRow, work: &mut u32)
        requires near { AreNear (2 ^ 29) self.old }
        ensures sums { (i : ℕ) → i < 160 →
            sample self.new i ≡ sample self.old i -ℤ sample old.now i +ℤ sample new.now i }
        ensures work { work.new ≡ work_after 2 work.old }
    {
        count(work);
        count(work);
        frames_are_whole(&old.samples);
        frames_are_whole(&new.samples);
        kernels::change_row(&mut self.sums, &old.samples, &new.samples);
    }

    /// Writes a total minus a row.
    pub fn write_difference(&mut self, total: &SumRow, row: &FrameRow, work: &mut u32)
        requires near { AreNear (2 ^ 30) total.now }
        ensures sums { (i : ℕ) → i < 160 →
            sample self.new i ≡ sample total.now i -ℤ sample row.now i }
        ensures work { work.new ≡ work_after 1 work.old }
    {
        count(work);
        frames_are_whole(&row.samples);
        kernels::difference(&mut self.sums, &total.sums, &row.samples);
    }
}
