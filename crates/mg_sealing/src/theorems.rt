//! The guarantees of valid seals, and the effect of sealing a recording twice. The functions do nothing: their
//! contracts are the theorems.

ghost use Rattle.mg_sealing.specs.Laws.{ChangesShow, SealedStays};

/// Let two texts have no invalid seal, and contain the same seal. Then the text before that seal is the same in both,
/// or two different parts of the texts have the same SHA-256.
pub fn changes_show()
    ensures theorem { ChangesShow }
{}

/// A recording that `seal` wrote stays unchanged if it is sealed again.
pub fn sealed_stays()
    ensures theorem { SealedStays }
{}
