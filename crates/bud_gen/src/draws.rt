//! The draws of a made design.
ghost use Rattle.std.specs.Prelude.{◌≡◌, ◌<◌, ◌/◌};
ghost use Rattle.bud_gen.specs.Draws.{next, behind};

/// How many states there are.
const STATES: u64 = 2147483648;

/// A row of draws, by its state.
#[derive(Clone, Copy, Debug)]
pub struct Draws {
    pub state: u32,
}

impl Draws {
    /// The draws behind so many of the row that begins with a number.
    pub fn behind(number: u32, count: u32) -> Draws
        requires { number < 2147483648 }
        ensures state { result.state ≡ behind number count }
        ensures range { result.state < 2147483648 }
    {
        let mut draws = Draws { state: number };
        for _ in 0..count {
            draws.draw();
        }
        draws
    }

    /// The next draw, which is below 2^15.
    pub fn draw(&mut self) -> u32
        requires { self.old.state < 2147483648 }
        ensures state { self.new.state ≡ next self.old.state }
        ensures range { self.new.state < 2147483648 }
        ensures value { result ≡ self.new.state / 65536 }
    {
        self.state = ((1103515245 * u64::from(self.state) + 12345) % STATES) as u32;
        self.state / 65536
    }
}
