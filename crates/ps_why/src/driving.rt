// The step that drives a signal.

ghost use Rattle.std.specs.Prelude.{◌≡◌};
ghost use Rattle.ps_why.specs.Driving.{driving_step};

use ps_model::Driver;

/// The number of the step that drives a signal: that which assigns it, or calls the instance whose output it is.
pub fn step_of_driver(driver: Driver) -> u16
    ensures { result ≡ driving_step driver }
{
    match driver {
        Driver::Assigned { step } => step,
        Driver::Output { step, .. } => step,
    }
}
