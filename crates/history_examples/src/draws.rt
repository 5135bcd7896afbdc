// A generator of chance: a step is x = (1664525 x + 1013904223) mod 2^32.
ghost use Rattle.std.specs.Prelude.{◌-◌, ◌≤◌};

#[derive(Drop)]
pub struct Generator {
    x: u32,
}

impl Generator {
    pub fn new(x: u32) -> Self {
        Generator { x }
    }

    // A number below the limit, from the state after a step; zero where the limit is zero.
    pub fn below(&mut self, limit: u32) -> u32
        ensures { result ≤ limit - 1 }
    {
        self.x = self.x.wrapping_mul(1_664_525).wrapping_add(1_013_904_223);
        (self.x / 65_536).checked_rem(limit).unwrap_or(0)
    }
}
