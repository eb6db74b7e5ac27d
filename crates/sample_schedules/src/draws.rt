//! Numbers that are drawn one after the other.
ghost use Rattle.std.specs.Prelude.{◌≡◌, ◌<◌};
ghost use Rattle.sample_schedules.specs.Draws.{draw, next};

/// Draws numbers, from a first state on.
#[derive(Drop)]
pub struct Draws {
    pub state: u64,
}

impl Draws {
    /// A number below the bound: the high bits of the next state, modulo the bound.
    #[tactic(auto, unfolding(crate::specs::Draws::draw, crate::specs::Draws::next))]
    pub fn draw(&mut self, bound: u64) -> u64
        requires { 0 < bound }
        ensures value { result ≡ (draw bound self.old.state).0 }
        ensures state { self.new.state ≡ (draw bound self.old.state).1 }
        ensures below { result < bound }
    {
        self.state = self
            .state
            .wrapping_mul(6_364_136_223_846_793_005)
            .wrapping_add(1_442_695_040_888_963_407);
        (self.state >> 33) % bound
    }
}
