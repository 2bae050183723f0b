ghost use Rattle.std.specs.Prelude.{◌≡◌, ◌≤◌, ◌<◌};
ghost use Rattle.scene_gen.specs.Draws.{draw};

/// The state from which numbers are drawn.
#[derive(Drop)]
pub struct Generator {
    pub state: u64,
}

impl Generator {
    /// A number below `n`. Each draw takes one step of the linear congruence modulo 2^64 with Knuth's factor, and the number is the
    /// remainder of the new state's 31 high bits. This project's own.
    pub fn draw(&mut self, n: u32) -> u32
        requires { 1 ≤ n }
        ensures value { result ≡ (draw n self.old.state).value }
        ensures state { self.new.state ≡ (draw n self.old.state).state }
        ensures below { result < n }
    {
        self.state = self
            .state
            .wrapping_mul(6364136223846793005)
            .wrapping_add(1442695040888963407);
        (self.state / 8589934592 % u64::from(n)) as u32
    }
}
