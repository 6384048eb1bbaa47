//! A device that threads share, in a step of its session.
ghost use Rattle.std.specs.Prelude.{◌≡◌};

use psu_session::Device;

/// A device that threads share. A thread may keep its lock from one call of a step to the next, and releases it at the
/// end of the step.
pub trait StepDevice: Device {
    /// Ends a step: the lock of the device is released, if the thread holds it.
    fn end_step(&mut self)
        ensures { self.new ≡ self.old };
}
