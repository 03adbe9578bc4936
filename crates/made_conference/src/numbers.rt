// Pseudo-random numbers.
ghost use Rattle.std.specs.Prelude.{◌≡◌, ◌<◌, ◌^◌};
ghost use Rattle.made_conference.specs.Numbers.{next_state, number_of};

/// How many states there are.
const STATES: u64 = 4_294_967_296;

/// Where the numbers of a seed stand.
#[derive(Drop)]
pub(crate) struct Numbers {
    pub state: u64,
}

impl Numbers {
    /// The numbers of a seed, before the first.
    pub(crate) fn new(seed: u64) -> Numbers
        ensures { result.state ≡ seed }
    {
        Numbers { state: seed }
    }

    /// Draws the next number, from 0 to 65,535.
    pub(crate) fn draw(&mut self) -> u32
        ensures state { self.new.state ≡ next_state self.old.state }
        ensures number { result ≡ number_of (next_state self.old.state) }
    {
        self.state = next_state(self.state);
        (self.state / 65_536) as u32
    }
}

fn next_state(state: u64) -> u64
    ensures value { result ≡ next_state state }
    ensures small { result < 2 ^ 32 }
{
    (state % STATES * 1_664_525 + 1_013_904_223) % STATES
}
