// Numbers that look random, the same in every run.
ghost use Rattle.std.specs.Prelude.{◌≡◌, ℕ, ◌<◌};
ghost use Rattle.program_tools.specs.Random.{next_state, drawn, drawn_or_late};

use std::marker::Model;

// A generator that leaves out LOW of the low bits of its states, which are the least random.
#[derive(Clone, Copy)]
pub struct Xorshift<const LOW: u32> {
    state: u64,
}

impl<const LOW: u32> Model for Xorshift<LOW> {
    ghost Value = { ℕ };

    ghost view = { λ generator. generator.state };

    ghost inverse = { λ state. record { state = state } };
}

// The one of the tables' trials, which draws by whole states.
pub type Dice = Xorshift<0>;

// The one of the stores' trials.
pub type Random = Xorshift<20>;

impl<const LOW: u32> Xorshift<LOW> {
    pub fn new(seed: u64) -> Xorshift<LOW>
        ensures { result ≡ seed }
    {
        Xorshift { state: seed }
    }

    #[tactic(auto, unfolding(crate::specs::Random::next_state))]
    fn advance(&mut self) -> u64
        ensures state { self.new ≡ next_state self.old }
        ensures value { result ≡ self.new }
    {
        let mut x = self.state;
        x ^= x.wrapping_shl(13);
        x ^= x >> 7;
        x ^= x.wrapping_shl(17);
        self.state = x;
        x
    }

    // A number below the bound, or 0 where that is 0.
    pub fn below(&mut self, bound: u8) -> u8
        ensures state { self.new ≡ next_state self.old }
        ensures value { result ≡ drawn LOW self.new bound }
        ensures below { 0 < bound → result < bound }
    {
        let state = self.advance().wrapping_shr(LOW);
        state.checked_rem(u64::from(bound)).unwrap_or(0) as u8
    }

    // A number below `few` mostly, and now and then one of the last good number, the one before and the first bad one.
    pub fn number(&mut self, few: u8, last: u8) -> u8
        ensures state { self.new ≡ next_state (next_state self.old) }
        ensures value { result ≡ drawn_or_late LOW (next_state self.old) self.new few last }
    {
        if self.below(40) > 0 {
            return self.below(few);
        }
        last.saturating_sub(1).saturating_add(self.below(3))
    }
}
