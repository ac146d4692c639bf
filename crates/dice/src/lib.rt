#![tactic(auto)]

ghost use Rattle.std.specs.Prelude.{◌≡◌, ℕ, ◌<◌};
ghost use Rattle.dice.specs.Numbers.{next_state, drawn};

use std::marker::Model;

// Numbers for tests: a linear congruential generator, so that each run makes the same calls.
#[derive(Drop)]
pub struct Dice {
    state: u64,
}

impl Model for Dice {
    ghost Value = { ℕ };

    ghost view = { λ dice. dice.state };
}

impl Dice {
    pub fn new(seed: u64) -> Dice
        ensures { result ≡ seed }
    {
        Dice { state: seed }
    }

    // A number from 0 up to below `sides`; 0 where there are no sides.
    pub fn roll(&mut self, sides: u64) -> u64
        ensures value { result ≡ drawn self.new sides }
        ensures next { self.new ≡ next_state self.old }
        ensures below { 0 < sides → result < sides }
    {
        self.state = self
            .state
            .wrapping_mul(6364136223846793005)
            .wrapping_add(1442695040888963407);
        (self.state >> 33).checked_rem(sides).unwrap_or(0)
    }

    // As `roll`, for small numbers.
    pub fn small(&mut self, sides: u8) -> u8
        ensures value { result ≡ drawn self.new sides }
        ensures next { self.new ≡ next_state self.old }
        ensures below { 0 < sides → result < sides }
    {
        self.roll(sides as u64) as u8
    }
}

#[cfg(test)]
mod tests {
    use super::*;

    #[test]
    fn the_same_seed_gives_the_same_numbers(rt: HostRuntime) {
        let mut dice = Dice::new(1);
        assert_eq!(rt;
            [dice.roll(1 << 31), dice.roll(1 << 31), dice.roll(1 << 31)],
            [908834774, 1093944153, 1392341196]
        );
        assert_eq!(rt;
            [dice.small(6), dice.small(168), dice.small(0)],
            [0, 138, 0]
        );
    }
}
