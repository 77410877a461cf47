ghost use Rattle.std.specs.Prelude.{◌≡◌, ◌<◌};
ghost use Rattle.scenario.specs.Generate.{drawn, next_state};

/// Numbers that follow from a seed: a linear congruential generator modulo 2^64, of which each draw gives the upper 31
/// bits modulo a bound.
#[derive(Clone, Copy, Debug, PartialEq, Eq)]
pub(crate) struct Dice {
    /// The seed at first.
    pub(crate) state: u64,
}

#[tactic(auto, unfolding(crate::specs::Generate::next_state, crate::specs::Generate::drawn))]
impl Dice {
    fn step(&mut self)
        ensures { self.new.state ≡ next_state self.old.state }
    {
        self.state = self
            .state
            .wrapping_mul(6_364_136_223_846_793_005)
            .wrapping_add(1_442_695_040_888_963_407);
    }

    /// A number below this one.
    pub(crate) fn draw(&mut self, below: u32) -> u32
        requires { 0 < below }
        ensures state { self.new.state ≡ next_state self.old.state }
        ensures value { result ≡ drawn below self.new.state }
        ensures small { result < below }
    {
        self.step();
        ((self.state >> 33) % u64::from(below)) as u32
    }
}
