// Laws that hold for all values that are scaled up or down.
ghost use Rattle.std.specs.Prelude.{ℕ, ◌≡◌, ◌<◌};
ghost use Rattle.bit_scaling.specs.Scaling.{
  up,
  down7,
  down14,
  release_down,
  velocity_down,
  IsIncreasing,
  KeepsEnds,
};

/// Proves that scaling a value up and then down returns the same value. For the velocity of a note on, this
/// holds from 1 up.
#[tactic(auto, using(crate::proofs::ScalingLaws::lowered_again))]
pub fn lowering_undoes_raising()
    ensures seven { (value : ℕ) → value < 128 → down7 (up value 7 32) ≡ value }
    ensures fourteen { (value : ℕ) → value < 16384 → down14 (up value 14 32) ≡ value }
    ensures release { (velocity : ℕ) → velocity < 128 → release_down (up velocity 7 16) ≡ velocity }
    ensures velocity { (velocity : ℕ) → 0 < velocity → velocity < 128 →
        velocity_down (up velocity 7 16) ≡ velocity }
{}

/// Proves that a greater value scales up to a greater value.
#[tactic(auto, using(crate::proofs::ScalingLaws::increases))]
pub fn raising_is_strictly_increasing()
    ensures velocity { IsIncreasing 7 16 }
    ensures seven { IsIncreasing 7 32 }
    ensures fourteen { IsIncreasing 14 32 }
{}

/// Proves that scaling up maps the minimum to the minimum, the centre to the centre and the maximum to the
/// maximum.
#[tactic(auto, using(crate::proofs::ScalingLaws::keeps_ends))]
pub fn raising_keeps_minimum_centre_and_maximum()
    ensures velocity { KeepsEnds 7 16 }
    ensures seven { KeepsEnds 7 32 }
    ensures fourteen { KeepsEnds 14 32 }
{}
