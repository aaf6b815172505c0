//! Tests of the row kernels, totals and mixes.

ghost use Rattle.std.specs.Prelude.{◌≡◌, ℕ, ◌^◌, ◌≤◌, length, EachIndex, IsTrue, unsigned_abs};
ghost use Rattle.mg_sums.specs.Samples.{sample};
ghost use Rattle.mg_sums.specs.Sums.{AreOfRoom, is_joined, left_out_by};

use crate::equality::assert_equal;
use mg_g711::{Frame, Law, decode_frame};
use mg_sums::ranges::assert_sample_range;
use mg_sums::{Room, Row, Sums, TERMINATION_LIMIT, kernels};
use std::process::Abort;
use std::test::Fail;

/// The lengths from 0 to 161 that each kernel is tested with.
const LENGTHS: [usize; 10] = [0, 1, 7, 8, 15, 16, 17, 159, 160, 161];

/// Returns a sum for an index: a number from -100000 to 99999.
fn sum_at(i: usize) -> i32 {
    ((i as u64).wrapping_mul(7919) % 200_000) as i32 - 100_000
}

/// Returns a sample for an index.
fn sample_at(i: usize) -> i16 {
    (((i as u64).wrapping_mul(27_411) % 65_536) as i32 - 32_768) as i16
}

fn sums() -> [i32; 161] {
    let mut sums = [0; 161];
    for i in 0..161 {
        sums[i] = sum_at(i);
    }
    sums
}

fn samples() -> [i16; 161] {
    let mut samples = [0; 161];
    for i in 0..161 {
        samples[i] = sample_at(i);
    }
    samples
}

/// Returns whether the magnitude of every sum is at most 2^30, so that a sample can be added or subtracted.
fn are_near(sums: &[i32]) -> bool
    ensures { IsTrue result → EachIndex sums.now (λ i. unsigned_abs (sample sums.now i) ≤ 2 ^ 30) }
{
    sums.iter().all(|sum| sum.unsigned_abs() <= 1 << 30)
}

/// Returns the sum and the sample at an index. The sample is 0 beyond the row.
fn parts(i: usize, len: usize) -> (i64, i64) {
    let sample = if i < len { sample_at(i) } else { 0 };
    (i64::from(sum_at(i)), i64::from(sample))
}

fn add(total: &mut [i32], row: &[i16]) -> bool
    requires { length total.old ≡ length row.now }
{
    assert_sample_range(row);
    if are_near(total) {
        kernels::add_row(total, row);
        return true;
    }
    false
}

fn take(total: &mut [i32], row: &[i16]) -> bool
    requires { length total.old ≡ length row.now }
{
    assert_sample_range(row);
    if are_near(total) {
        kernels::take_row(total, row);
        return true;
    }
    false
}

fn change(total: &mut [i32], old: &[i16], new: &[i16]) -> bool
    requires { (length total.old ≡ length old.now) × (length old.now ≡ length new.now) }
{
    assert_sample_range(old);
    assert_sample_range(new);
    if are_near(total) {
        kernels::change_row(total, old, new);
        return true;
    }
    false
}

fn write_difference(out: &mut [i32], total: &[i32], row: &[i16]) -> bool
    requires { (length out.old ≡ length row.now) × (length total.now ≡ length row.now) }
{
    assert_sample_range(row);
    if are_near(total) {
        kernels::difference(out, total, row);
        return true;
    }
    false
}

/// Returns whether the kernels have the right results at an index, for a row of this length.
fn add_up(i: usize, len: usize, more: i32, less: i32, rest: i32) -> bool {
    let (sum, sample) = parts(i, len);
    i64::from(more) == sum.wrapping_add(sample)
        && i64::from(less) == sum.wrapping_sub(sample)
        && rest == less
}

/// Returns the first index at which a kernel adds or subtracts wrongly, or 161 if there is no such index. Returns
/// `None` if a sum is too large to be added to.
fn added_up(total: &[i32; 161], samples: &[i16; 161], len: usize) -> Option<usize> {
    let (mut more, mut less, mut rest) = (*total, *total, *total);
    let (row, len) = (samples.get(..len)?, len.min(161));
    if !add(&mut more[..len], row) || !take(&mut less[..len], row) {
        return None;
    }
    if !write_difference(&mut rest[..len], &total[..len], row) {
        return None;
    }
    for i in 0..161 {
        if !add_up(i, len, more[i], less[i], rest[i]) {
            return Some(i);
        }
    }
    Some(161)
}

/// Returns the first index at which a row is not replaced with another, or 161 if there is no such index. Returns `None`
/// if a sum is too large to be added to.
fn replaced(total: &[i32; 161], samples: &[i16; 161], len: usize) -> Option<usize> {
    let mut sums = *total;
    let mut others = [0; 161];
    for i in 0..161 {
        others[i] = sample_at(160 - i);
    }
    let (old, new) = (samples.get(..len)?, others.get(..len)?);
    if !change(sums.get_mut(..len)?, old, new) {
        return None;
    }
    for i in 0..161 {
        let more = if i < len {
            i32::from(others[i]) - i32::from(samples[i])
        } else {
            0
        };
        if sums[i].wrapping_sub(total[i]) != more {
            return Some(i);
        }
    }
    Some(161)
}

#[test]
fn kernels_add_up_at_each_length(rt: HostRuntime) {
    let (total, samples) = (sums(), samples());
    for len in &LENGTHS {
        let right = added_up(&total, &samples, *len);
        assert_equal(&rt, (*len, right), (*len, Some(161)));
        let right = replaced(&total, &samples, *len);
        assert_equal(&rt, (*len, right), (*len, Some(161)));
    }
}

/// Returns the first index at which sums of this length are limited wrongly, or 161 if there is no such index.
fn limited(sums: &[i32; 161], len: usize) -> usize {
    let len = len.min(161);
    let mut limits = [1; 161];
    kernels::limit(&mut limits[..len], &sums[..len]);
    for i in 0..161 {
        let sum = if i < len { sum_at(i) } else { 1 };
        let limit = if sum > 32767 { 32767 } else { sum };
        let limit = if limit < -32768 { -32768 } else { limit };
        if i32::from(limits[i]) != limit {
            return i;
        }
    }
    161
}

#[test]
fn kernels_limit_at_each_length(rt: HostRuntime) {
    let sums = sums();
    for len in &LENGTHS {
        assert_equal(&rt, (*len, limited(&sums, *len)), (*len, 161));
    }
}

/// Returns whether the row is joined to the room.
fn is_joined(sums: &Sums, room: Room, row: Row) -> bool
    ensures { result ≡ is_joined sums.now.rooms room row }
{
    match sums.room(row) {
        Some(joined) => joined.number() == room.number(),
        None => false,
    }
}

/// Returns whether a sum of this room can leave out the base and the rows in `minus`. These are at most two different
/// rows, at most one of them in `minus`, and each is joined to the room.
fn can_mix(sums: &Sums, room: Room, base: Option<Row>, minus: &[Row]) -> bool
    ensures { IsTrue result → AreOfRoom sums.now.rooms room (left_out_by base minus.now) }
{
    match (base, minus) {
        (None, []) => true,
        (Some(row), []) => is_joined(sums, room, row),
        (None, [row]) => is_joined(sums, room, *row),
        (Some(first), [second]) => {
            is_joined(sums, room, first)
                && is_joined(sums, room, *second)
                && first.number() != second.number()
        }
        _ => false,
    }
}

fn join(sums: &mut Sums, room: Room, row: Row) -> Result<(), Fail> {
    if sums.room(row).is_some() {
        return Err("a row that is joined nowhere".into());
    }
    sums.join(room, row);
    Ok(())
}

fn leave(sums: &mut Sums, room: Room, row: Row) -> Result<(), Fail> {
    if !is_joined(sums, room, row) {
        return Err("a row that is joined".into());
    }
    sums.leave(room, row);
    Ok(())
}

/// Returns the first sample of a mix whose samples are all the same.
fn mix(sums: &mut Sums, room: Room, base: Option<Row>, minus: &[Row]) -> Result<i16, Fail> {
    let checked = base;
    if !can_mix(sums, room, checked, minus) {
        return Err("rows of the room".into());
    }
    let frame = sums.mix(room, base, minus);
    let first = frame[0];
    if frame.iter().any(|sample| *sample != first) {
        return Err("equal samples".into());
    }
    Ok(first)
}

/// A row that is not joined to a room keeps its frame, which does not count toward any total.
fn keep_a_row_that_is_joined_nowhere(rt: &impl Abort, sums: &mut Sums) {
    let row = Row::new((TERMINATION_LIMIT - 1) as u8);
    sums.set_frame(row, Some(&[5; 160]));
    assert!(rt; sums.room(row).is_none());
    assert_equal(rt, *sums.frame(row), [5; 160]);
    assert_equal(rt, (*sums.total(Room::new(63), 159), sums.work()), (0, 0));
}

/// Joins three rows to a room: two with mu-law's largest sample, and one with its smallest.
fn join_three(sums: &mut Sums, room: Room) -> Result<(), Fail> {
    let frames: [Frame; 3] = [
        decode_frame(Law::Mu, &[0x80; 160]),
        decode_frame(Law::Mu, &[0x80; 160]),
        decode_frame(Law::Mu, &[0x00; 160]),
    ];
    for (number, frame) in frames.iter().enumerate() {
        let row = Row::new(number as u8);
        sums.set_frame(row, Some(frame));
        join(sums, room, row)?;
    }
    Ok(())
}

/// A mix is saturated once: it is the saturated sum of the other rows, not the saturated total minus a row.
fn limit_mixes(rt: &impl Abort, sums: &mut Sums, room: Room) -> Result<(), Fail> {
    let (first, second, third) = (Row::new(0), Row::new(1), Row::new(2));
    assert_equal(rt, *sums.total(room, 0), 32124);
    let mixes = [
        mix(sums, room, Some(first), &[])?,
        mix(sums, room, Some(third), &[])?,
        mix(sums, room, None, &[third])?,
        mix(sums, room, Some(first), &[second])?,
    ];
    assert_equal(rt, mixes, [0, 32767, 32767, -32124]);
    assert_equal(rt, sums.work(), 3 + 2 + 2 + 2);
    Ok(())
}

/// Totals are not saturated. The third row moves to another room, and the second row falls silent.
fn keep_totals(rt: &impl Abort, sums: &mut Sums, room: Room) -> Result<(), Fail> {
    let other = Room::new(63);
    let (second, third) = (Row::new(1), Row::new(2));
    leave(sums, room, third)?;
    join(sums, other, third)?;
    let totals = (*sums.total(room, 0), *sums.total(other, 159));
    assert_equal(rt, totals, (64248, -32124));
    assert_equal(rt, mix(sums, room, None, &[])?, 32767);

    sums.set_frame(second, None);
    assert_equal(rt, *sums.total(room, 0), 32124);
    assert_equal(rt, *sums.frame(second), [0; 160]);
    assert!(rt; sums.is_silent(second) && !sums.is_silent(third));
    assert_equal(rt, sums.work(), 9 + 2 + 1 + 2);
    Ok(())
}

#[test]
fn totals_and_mixes(rt: HostRuntime) -> Result<(), Fail> {
    let room = Room::new(0);
    let mut sums = Sums::new(rt.alloc())?;
    keep_a_row_that_is_joined_nowhere(&rt, &mut sums);
    join_three(&mut sums, room)?;
    limit_mixes(&rt, &mut sums, room)?;
    keep_totals(&rt, &mut sums, room)
}
