//! The outputs by name.
ghost use Rattle.std.specs.Prelude.{◌≡◌, ◌<◌};
ghost use Rattle.psu_settings.specs.Settings.{place_of};

/// One of the four outputs.
#[derive(Clone, Copy, Debug, PartialEq, Eq)]
pub enum Output {
    First,
    Second,
    Third,
    Fourth,
}

impl Output {
    /// Its place among the four.
    pub fn place(self) -> usize
        ensures value { result ≡ place_of self }
        ensures inside { result < 4 }
    {
        match self {
            Output::First => 0,
            Output::Second => 1,
            Output::Third => 2,
            Output::Fourth => 3,
        }
    }
}
