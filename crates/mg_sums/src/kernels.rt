//! Vector kernels on slices of equal length: they add, subtract and saturate rows.
//!
//! Samples are 16 bits wide, and sums are 32 bits wide. A kernel processes eight elements at a time, and the rest one
//! by one.

ghost use Rattle.std.specs.Prelude.{◌≡◌, ℕ, ◌+◌, ◌<◌, ◌≤◌, ◌+ℤ◌, ◌-ℤ◌, length, EachIndex, FitsSigned};
ghost use Rattle.std.specs.Int.{w16, w32};
ghost use Rattle.mg_sums.specs.Samples.{sample, nearest_sample};
ghost use Rattle.mg_g711.specs.aids.Chunks.{WritesChunk};

use crate::ranges::{assert_sample_range, assert_sum_range};
use std::simd::prelude::*;

// The number of elements in a vector.
const LANES: usize = 8;

/// Adds a row to a total.
pub fn add_row(total: &mut [i32], row: &[i16])
    requires same_length { length total.old ≡ length row.now }
    requires fits { EachIndex total.old (λ i.
        FitsSigned w32 (sample total.old i +ℤ sample row.now i)) }
    ensures sums { EachIndex total.new (λ i.
        sample total.new i ≡ sample total.old i +ℤ sample row.now i) }
{
    assert_sample_range(row);
    assert_sum_range(total);
    let (chunks, _) = row.as_chunks::<LANES>();
    for (i, chunk) in chunks.iter().enumerate() {
        add_chunk(total, LANES * i, chunk);
    }
    for i in LANES * chunks.len()..row.len() {
        total[i] += i32::from(row[i]);
    }
}

// Adds eight samples to a total, starting at index `at`.
fn add_chunk(total: &mut [i32], at: usize, chunk: &[i16; LANES])
    requires within { at + 8 ≤ length total.old }
    requires samples { (j : ℕ) → j < 8 → FitsSigned w16 (sample chunk.now j) }
    requires sums { (j : ℕ) → j < 8 → FitsSigned w32 (sample total.old (at + j)) }
    requires fits { (j : ℕ) → j < 8 →
        FitsSigned w32 (sample total.old (at + j) +ℤ sample chunk.now j) }
    ensures { WritesChunk 8 total.old total.new at (λ j.
        sample total.old (at + j) +ℤ sample chunk.now j) }
{
    let samples = i16x8::from_array(*chunk).cast::<i32>();
    let sums = i32x8::from_slice(&total[at..]).strict_add(samples);
    sums.copy_to_slice(&mut total[at..]);
}

/// Subtracts a row from a total.
pub fn take_row(total: &mut [i32], row: &[i16])
    requires same_length { length total.old ≡ length row.now }
    requires fits { EachIndex total.old (λ i.
        FitsSigned w32 (sample total.old i -ℤ sample row.now i)) }
    ensures differences { EachIndex total.new (λ i.
        sample total.new i ≡ sample total.old i -ℤ sample row.now i) }
{
    assert_sample_range(row);
    assert_sum_range(total);
    let (chunks, _) = row.as_chunks::<LANES>();
    for (i, chunk) in chunks.iter().enumerate() {
        take_chunk(total, LANES * i, chunk);
    }
    for i in LANES * chunks.len()..row.len() {
        total[i] -= i32::from(row[i]);
    }
}

// Subtracts eight samples from a total, starting at index `at`.
fn take_chunk(total: &mut [i32], at: usize, chunk: &[i16; LANES])
    requires within { at + 8 ≤ length total.old }
    requires samples { (j : ℕ) → j < 8 → FitsSigned w16 (sample chunk.now j) }
    requires sums { (j : ℕ) → j < 8 → FitsSigned w32 (sample total.old (at + j)) }
    requires fits { (j : ℕ) → j < 8 →
        FitsSigned w32 (sample total.old (at + j) -ℤ sample chunk.now j) }
    ensures { WritesChunk 8 total.old total.new at (λ j.
        sample total.old (at + j) -ℤ sample chunk.now j) }
{
    let samples = i16x8::from_array(*chunk).cast::<i32>();
    let rest = i32x8::from_slice(&total[at..]).strict_sub(samples);
    rest.copy_to_slice(&mut total[at..]);
}

/// Subtracts one row from a total and adds another.
pub fn change_row(total: &mut [i32], old: &[i16], new: &[i16])
    requires same_length { length total.old ≡ length old.now }
    requires same_lengths { length old.now ≡ length new.now }
    requires fits { EachIndex total.old (λ i.
        FitsSigned w32 (sample total.old i -ℤ sample old.now i +ℤ sample new.now i)) }
    ensures sums { EachIndex total.new (λ i.
        sample total.new i ≡ sample total.old i -ℤ sample old.now i +ℤ sample new.now i) }
{
    assert_sample_range(old);
    assert_sample_range(new);
    assert_sum_range(total);
    let (before, _) = old.as_chunks::<LANES>();
    let (after, _) = new.as_chunks::<LANES>();
    for (i, chunk) in before.iter().enumerate() {
        change_chunk(total, LANES * i, chunk, &after[i]);
    }
    for i in LANES * before.len()..old.len() {
        total[i] += i32::from(new[i]) - i32::from(old[i]);
    }
}

// Subtracts eight samples from a total and adds eight others, starting at index `at`.
fn change_chunk(total: &mut [i32], at: usize, old: &[i16; LANES], new: &[i16; LANES])
    requires within { at + 8 ≤ length total.old }
    requires olds { (j : ℕ) → j < 8 → FitsSigned w16 (sample old.now j) }
    requires news { (j : ℕ) → j < 8 → FitsSigned w16 (sample new.now j) }
    requires sums { (j : ℕ) → j < 8 → FitsSigned w32 (sample total.old (at + j)) }
    requires fits { (j : ℕ) → j < 8 →
        FitsSigned w32 (sample total.old (at + j) -ℤ sample old.now j +ℤ sample new.now j) }
    ensures { WritesChunk 8 total.old total.new at (λ j.
        sample total.old (at + j) -ℤ sample old.now j +ℤ sample new.now j) }
{
    let less = i16x8::from_array(*old).cast::<i32>();
    let change = i16x8::from_array(*new).cast::<i32>().strict_sub(less);
    let sums = i32x8::from_slice(&total[at..]).strict_add(change);
    sums.copy_to_slice(&mut total[at..]);
}

/// Writes the difference between a total and a row.
pub fn difference(out: &mut [i32], total: &[i32], row: &[i16])
    requires same_length { length out.old ≡ length row.now }
    requires same_lengths { length total.now ≡ length row.now }
    requires fits { EachIndex total.now (λ i.
        FitsSigned w32 (sample total.now i -ℤ sample row.now i)) }
    ensures differences { EachIndex out.new (λ i.
        sample out.new i ≡ sample total.now i -ℤ sample row.now i) }
{
    assert_sample_range(row);
    assert_sum_range(total);
    let (totals, _) = total.as_chunks::<LANES>();
    let (chunks, _) = row.as_chunks::<LANES>();
    for (i, chunk) in chunks.iter().enumerate() {
        difference_chunk(out, LANES * i, &totals[i], chunk);
    }
    for i in LANES * chunks.len()..row.len() {
        out[i] = total[i] - i32::from(row[i]);
    }
}

// Writes the differences of eight sums and samples, starting at index `at`.
fn difference_chunk(out: &mut [i32], at: usize, total: &[i32; LANES], chunk: &[i16; LANES])
    requires within { at + 8 ≤ length out.old }
    requires samples { (j : ℕ) → j < 8 → FitsSigned w16 (sample chunk.now j) }
    requires sums { (j : ℕ) → j < 8 → FitsSigned w32 (sample total.now j) }
    requires fits { (j : ℕ) → j < 8 → FitsSigned w32 (sample total.now j -ℤ sample chunk.now j) }
    ensures { WritesChunk 8 out.old out.new at (λ j. sample total.now j -ℤ sample chunk.now j) }
{
    let samples = i16x8::from_array(*chunk).cast::<i32>();
    let rest = i32x8::from_array(*total).strict_sub(samples);
    rest.copy_to_slice(&mut out[at..]);
}

/// Saturates each sum to 16 bits.
pub fn limit(samples: &mut [i16], sums: &[i32])
    requires same_length { length samples.old ≡ length sums.now }
    ensures limits { EachIndex samples.new (λ i.
        sample samples.new i ≡ nearest_sample (sample sums.now i)) }
{
    assert_sum_range(sums);
    let (chunks, _) = sums.as_chunks::<LANES>();
    for (i, chunk) in chunks.iter().enumerate() {
        limit_chunk(samples, LANES * i, chunk);
    }
    for i in LANES * chunks.len()..sums.len() {
        samples[i] = sums[i].clamp(-32768, 32767) as i16;
    }
}

// Saturates eight sums, starting at index `at`.
fn limit_chunk(samples: &mut [i16], at: usize, chunk: &[i32; LANES])
    requires within { at + 8 ≤ length samples.old }
    requires sums { (j : ℕ) → j < 8 → FitsSigned w32 (sample chunk.now j) }
    ensures { WritesChunk 8 samples.old samples.new at (λ j. nearest_sample (sample chunk.now j)) }
{
    let (least, greatest) = (i32x8::splat(-32768), i32x8::splat(32767));
    let limited = i32x8::from_array(*chunk).simd_clamp(least, greatest);
    limited.cast::<i16>().copy_to_slice(&mut samples[at..]);
}
