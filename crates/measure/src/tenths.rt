//! Heights in tenths of a millimetre and volumes in tenths of a litre, as people read them.
ghost use Rattle.std.specs.Prelude.{◌≡◌, pos};
ghost use Rattle.measure.specs.Written.{number_written};

use std::fmt;

/// A number of tenths: 15 is written `1.5`.
#[derive(Clone, Copy, PartialEq, Eq, Debug)]
pub struct Tenths {
    below_zero: bool,
    size: u64,
}

impl From<u64> for Tenths {
    ghost from_gives = { λ n written. number_written written ≡ pos n };

    fn from(size: u64) -> Tenths {
        Tenths {
            below_zero: false,
            size,
        }
    }
}

impl From<u32> for Tenths {
    ghost from_gives = { λ n written. number_written written ≡ pos n };

    fn from(size: u32) -> Tenths {
        Tenths::from(u64::from(size))
    }
}

impl From<i64> for Tenths {
    ghost from_gives = { λ z written. number_written written ≡ z };

    fn from(number: i64) -> Tenths {
        Tenths {
            below_zero: number < 0,
            size: number.unsigned_abs(),
        }
    }
}

impl fmt::Display for Tenths {
    fn fmt<W: fmt::Write>(&self, f: &mut fmt::Formatter<W>) -> fmt::Result {
        let sign = if self.below_zero { "-" } else { "" };
        write!(f, "{sign}{}.{}", self.size / 10, self.size % 10)
    }
}
