use std::marker::Model;

/// The most papers that a reviewer may be asked to take.
pub const MOST_LOAD: u32 = 1_500;

/// How many papers a reviewer takes: at least `least` and at most `greatest`, which is at most 1,500.
#[derive(Clone, Copy)]
pub struct Load {
    least: u32,
    greatest: u32,
}

impl Model for Load {
    ghost use Rattle.std.specs.Prelude.{◌≤◌};
    ghost use Rattle.roster.specs.Loads.{LoadValue};
    ghost use Rattle.roster.specs.declared.load.TheConstants.{MOST_LOAD};

    ghost Value = { LoadValue };

    ghost view = { λ l. record { least = l.least; greatest = l.greatest } };

    ghost invariant = { λ l. (l.least ≤ l.greatest) × (l.greatest ≤ MOST_LOAD) };

    ghost inverse = { λ v. record { least = v.least; greatest = v.greatest } };
}

impl Load {
    ghost use Rattle.std.specs.Prelude.{◌≡◌, ◌≤◌};
    ghost use Rattle.roster.specs.Loads.{load_from};

    /// The load from `least` to `greatest`, where that is one.
    pub fn new(least: u32, greatest: u32) -> Option<Load>
        ensures { result ≡ load_from least greatest }
    {
        if least > greatest {
            return None;
        }
        if greatest > MOST_LOAD {
            return None;
        }
        Some(Load { least, greatest })
    }

    /// The least number of papers.
    pub fn least(self) -> u32
        ensures same { result ≡ self.least }
        ensures rises { result ≤ self.greatest }
    {
        self.least
    }

    /// The greatest number of papers.
    pub fn greatest(self) -> u32
        ensures same { result ≡ self.greatest }
        ensures few { result ≤ MOST_LOAD }
    {
        self.greatest
    }
}
