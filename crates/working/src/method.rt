//! The methods of mass.
ghost use Rattle.std.specs.Prelude.{◌≡◌};
ghost use Rattle.working.specs.Methods.{method_number, method_of};

use measure::refusal::{Cause, Refusal};

#[derive(Clone, Copy, PartialEq, Eq, Debug)]
pub enum Method {
    /// Method 1: standard volume times density.
    Plain,
    /// Method 2: as weighed in air.
    InAir,
}

/// The method with this number; any other is refused.
impl TryFrom<u32> for Method {
    type Error = Refusal;

    ghost try_from_gives = { λ number method. method ≡ method_of number };

    fn try_from(number: u32) -> Result<Self, Refusal> {
        match number {
            1 => Ok(Method::Plain),
            2 => Ok(Method::InAir),
            _ => Err(Cause::MethodUnknown.at(i64::from(number))),
        }
    }
}

impl From<Method> for u32 {
    ghost from_gives = { λ method number. number ≡ method_number method };

    fn from(method: Method) -> u32 {
        match method {
            Method::Plain => 1,
            Method::InAir => 2,
        }
    }
}
