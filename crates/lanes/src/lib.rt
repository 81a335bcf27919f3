// Many readings of one run at once: each is a lane, one bit of every word of the engine.
#![tactic(auto)]

ghost use Rattle.std.specs.Prelude.{◌≡◌, not, ℕ, ◌<◌, eqb};
ghost use Rattle.lanes.specs.Lanes.{lane_count, lane};

// One of the lanes of a word.
#[derive(Clone, Copy)]
pub struct Lane(pub usize);

impl Lane {
    pub const LAST: usize = 63;
}

// Every lane set but one.
pub fn all_but(at: Lane) -> u64
    requires { at.0 < lane_count }
    ensures { (k : ℕ) → k < lane_count → lane result k ≡ not (eqb k at.0) }
{
    !(1u64 << (at.0 as u64))
}

// Whether a lane of a word is set.
pub fn in_lane(word: u64, at: Lane) -> bool
    requires { at.0 < lane_count }
    ensures { result ≡ lane word at.0 }
{
    (word >> (at.0 as u64)) % 2 == 1
}
