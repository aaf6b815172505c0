//! Properties of totals and mixes, however they are stored.
//!
//! The functions do nothing: their contracts are the theorems.

ghost use Rattle.std.specs.Prelude.{◌≡◌, ℕ, ◌++◌, List, Option, map};
ghost use Rattle.std.specs.List.{range_with_len};
ghost use Rattle.mg_sums.specs.Samples.{nearest_sample, sum_of};
ghost use Rattle.mg_sums.specs.Sums.{SumsState, AreAllOfRoom, sample_in, heard_of, left_out_by, mix_of};
ghost use Rattle.mg_sums.specs.aids.Sums.{total_of};

/// A total does not depend on the order of the room's rows.
pub fn order_does_not_matter()
    ensures { (kept : SumsState) (room i : ℕ) (rows : List ℕ) → AreAllOfRoom kept.rooms room rows →
        total_of kept room i ≡ sum_of (sample_in kept.frames i) rows }
{}

/// If the rows of a room are the base, the rows of `minus` and `others`, a mix is the sum of `others`, saturated once.
pub fn others_are_heard()
    ensures heard { (kept : SumsState) (room i : ℕ) (base : Option ℕ) (minus others : List ℕ) →
        AreAllOfRoom kept.rooms room (left_out_by base minus ++ others) →
        heard_of kept room (left_out_by base minus) i ≡ sum_of (sample_in kept.frames i) others }
    ensures mix { (kept : SumsState) (room : ℕ) (base : Option ℕ) (minus others : List ℕ) →
        AreAllOfRoom kept.rooms room (left_out_by base minus ++ others) →
        mix_of kept room (left_out_by base minus)
        ≡ map (λ i. nearest_sample (sum_of (sample_in kept.frames i) others))
        (range_with_len 0 160) }
{}
