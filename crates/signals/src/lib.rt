// One row at one step: the bits of a step's word, and a row's value from the values below it and after it.
#![tactic(auto)]

ghost use Rattle.std.proofs.Common.{ap, ◌∙◌};
ghost use Rattle.std.specs.Prelude.{◌≡◌, Bool, not, ◌&&◌, ◌||◌, ℕ, ◌<◌};
ghost use Rattle.signals.specs.Truth.{bit, word_sound};
ghost use Rattle.signals.specs.Column.{cell};
ghost use Rattle.lanes.specs.Lanes.{lane_count, lane};
ghost use Rattle.lanes.proofs.Bitwise.{lane_and, lane_or};

use figures::{ConditionCount, ConditionNumber, RowNumber};
use limits::Suite;
use rows::Kind;
use std::ops::{BitAnd, BitOr};

// What the condition rows read at a step: its word, and at one row, if any, a value of its own.
#[derive(Clone, Copy)]
pub struct Reads {
    pub word: u32,
    pub own: Option<(RowNumber, bool)>,
}

// Whether a step's word holds a condition.
#[inline]
#[tactic(auto, unfolding(crate::specs::Truth::bit))]
pub fn bit_of(word: u32, condition: ConditionNumber) -> bool
    ensures { result ≡ bit word condition.0 }
{
    let c = condition.0;
    c < Suite::CONDITIONS && (word >> (c as u32)) % 2 == 1
}

// Whether no bit at or above the number of conditions is set.
#[tactic(auto, using(crate::proofs::Bits::clear_from, crate::proofs::Bits::clear_past))]
pub fn word_sound(word: u32, conditions: ConditionCount) -> bool
    ensures { result ≡ word_sound conditions.0 word }
{
    let from = conditions.0;
    from >= Suite::CONDITIONS || word >> (from as u32) == 0
}

// Truth values, one or many at once, that the engine computes with: each stands in a lane.
pub trait Values: Copy + BitAnd<Self, Output = Self> + BitOr<Self, Output = Self> {
    // How many lanes there are, and the value in one.
    ghost lanes: { ℕ };

    ghost at: { Self → ℕ → Bool };

    // A value in every lane.
    fn in_all(value: bool) -> Self
        ensures { (k : ℕ) → k < lanes → at result k ≡ value };

    // The other value in every lane.
    fn not(self) -> Self
        ensures { (k : ℕ) → k < lanes → at result k ≡ not (at self k) };

    // `&` and `|` may be used at any values, and work on each lane apart.
    ghost can_and: { (a b : Self) → Self.can_bitand a b };

    ghost and_law: { (a b r : Self) → Self.bitand_gives a b r → (k : ℕ) → at r k ≡ (at a k && at b k) };

    ghost can_or: { (a b : Self) → Self.can_bitor a b };

    ghost or_law: { (a b r : Self) → Self.bitor_gives a b r → (k : ℕ) → at r k ≡ (at a k || at b k) };
}

// One value alone.
impl Values for bool {
    ghost lanes = { 1 };

    ghost at = { λ value k. value };

    ghost can_and = { λ a b. tt };

    ghost and_law = { λ a b r gives k. gives };

    ghost can_or = { λ a b. tt };

    ghost or_law = { λ a b r gives k. gives };

    #[inline]
    fn in_all(value: bool) -> bool {
        value
    }

    #[inline]
    fn not(self) -> bool {
        !self
    }
}

// The values in a word's bits: many readings of one run at once.
impl Values for u64 {
    ghost lanes = { lane_count };

    ghost at = { lane };

    ghost can_and = { λ a b. tt };

    ghost and_law = { λ a b r gives k. ap (λ w. lane w k) gives ∙ lane_and a b k };

    ghost can_or = { λ a b. tt };

    ghost or_law = { λ a b r gives k. ap (λ w. lane w k) gives ∙ lane_or a b k };

    #[inline]
    #[tactic(auto, using(lanes::proofs::Bitwise::lane_none, lanes::proofs::Bitwise::lane_all))]
    fn in_all(value: bool) -> u64 {
        if value { u64::MAX } else { 0 }
    }

    #[inline]
    #[tactic(auto, using(lanes::proofs::Bitwise::lane_not))]
    fn not(self) -> u64 {
        !self
    }
}

// The value of a row at a step in each lane, from values at this step and the next.
#[inline]
pub fn cell<V: Values>(kind: Kind, own: V, a: V, b: V, a_next: V, next: V, last: V) -> V
    ensures { (k : ℕ) → k < V.lanes → V.at result k ≡ cell kind (V.at own k) (V.at a k) (V.at b k) (V.at a_next k) (V.at next k) (V.at last k) }
{
    match kind {
        Kind::False => V::in_all(false),
        Kind::True => V::in_all(true),
        Kind::Condition => own,
        Kind::Not => a.not(),
        Kind::And => a & b,
        Kind::Or => a | b,
        Kind::StrongNext => last.not() & a_next,
        Kind::WeakNext => last | a_next,
        Kind::Until => b | (a & (last.not() & next)),
        Kind::Release => b & (a | (last | next)),
        Kind::Finally => a | (last.not() & next),
        Kind::Globally => a & (last | next),
        Kind::WeakUntil => b | (a & (last | next)),
        Kind::Unknown => V::in_all(false),
    }
}
