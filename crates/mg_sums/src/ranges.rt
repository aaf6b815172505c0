//! Ranges of elements, for proofs.
//!
//! A proof knows the range of a signed element only after the code has read it. These loops read each element and do
//! nothing else, so the compiler removes them.

ghost use Rattle.std.specs.Prelude.{EachIndex, FitsSigned};
ghost use Rattle.std.specs.Int.{w16, w32};
ghost use Rattle.mg_sums.specs.Samples.{sample};

/// Proves that each sample of a row fits in 16 bits.
pub fn assert_sample_range(row: &[i16])
    ensures { EachIndex row.now (λ i. FitsSigned w16 (sample row.now i)) }
{
    for i in 0..row.len() {
        let _sample = row[i];
    }
}

/// Proves that each sum of a row fits in 32 bits.
pub fn assert_sum_range(row: &[i32])
    ensures { EachIndex row.now (λ i. FitsSigned w32 (sample row.now i)) }
{
    for i in 0..row.len() {
        let _sum = row[i];
    }
}
