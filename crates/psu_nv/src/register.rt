//! The registers by number.
ghost use Rattle.std.specs.Prelude.{◌≡◌, ◌<◌, ◌≤◌, IfSome, IfNone};

use crate::REGISTERS;

/// One of the hundred registers of settings, 0 to 99.
#[derive(Clone, Copy, Debug, PartialEq, Eq)]
pub struct Register {
    number: u8,
    ghost low: { number < 100 },
}

impl Register {
    /// The register with this number; `None` above 99.
    pub fn of(number: u8) -> Option<Register>
        ensures found { IfSome result (λ register. register.number ≡ number) }
        ensures none { IfNone result (100 ≤ number) }
    {
        if usize::from(number) < REGISTERS {
            Some(Register { number })
        } else {
            None
        }
    }

    /// Register 0, whose settings may be those at power-on.
    pub fn first() -> Register
        ensures { result.number ≡ 0 }
    {
        Register { number: 0 }
    }

    /// The number of the register, 0 to 99.
    pub fn number(self) -> u8
        ensures value { result ≡ self.number }
        ensures low { result < 100 }
    {
        self.number
    }
}
