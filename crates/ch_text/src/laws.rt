//! Laws of devices, each the contract of a function that does nothing.
ghost use Rattle.std.specs.Prelude.{◌≡◌, ◌⊎◌, ◌+◌, ◌<◌, ℕ, List, length, take};
ghost use Rattle.ch_text.specs.Device.{HasGiven, HasTaken};
ghost use Rattle.ch_text.specs.Moves.{GaveAll, GaveUntilFault, Took, TookUntilFault};

use crate::device::{Input, Output};

/// Proves that an input whose bytes are known had exactly the bytes that its reads gave, and has none left.
pub fn reads_tell<I: Input>()
    ensures { (old : I) → (bytes : List ℕ) → (new : I) → GaveAll I.read_gives old bytes new → HasGiven (I.left old) (I.left new) bytes }
{}

/// Proves that an output whose bytes are known took exactly the bytes that its writes took: a whole text, or its
/// first bytes up to a failed write.
pub fn writes_tell<O: Output>()
    ensures whole { (old : O) → (text : List ℕ) → (new : O) → Took O.write_gives old text new → HasTaken (O.taken old) (O.taken new) text }
    ensures part { (old : O) → (text : List ℕ) → (count : ℕ) → (new : O) → TookUntilFault O.write_gives old text count new →
        (count < length text) × HasTaken (O.taken old) (O.taken new) (take count text) }
{}

/// Proves that an input counts a failed read exactly where there was one.
pub fn reads_count<I: Input>()
    ensures all { (old : I) → (bytes : List ℕ) → (new : I) → GaveAll I.read_gives old bytes new → I.failed new ≡ I.failed old }
    ensures fault { (old : I) → (bytes : List ℕ) → (new : I) → GaveUntilFault I.read_gives old bytes new → I.failed new ≡ I.failed old + 1 }
{}

/// Proves that an output counts a write that failed, or that took none of some bytes, exactly where there was one.
pub fn writes_count<O: Output>()
    ensures whole { (old : O) → (text : List ℕ) → (new : O) → Took O.write_gives old text new → (O.failed new ≡ O.failed old) × (O.idle new ≡ O.idle old) }
    ensures part { (old : O) → (text : List ℕ) → (count : ℕ) → (new : O) → TookUntilFault O.write_gives old text count new →
        ((O.failed new ≡ O.failed old + 1) × (O.idle new ≡ O.idle old)) ⊎ ((O.failed new ≡ O.failed old) × (O.idle new ≡ O.idle old + 1)) }
{}
