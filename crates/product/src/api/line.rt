//! The table of constants: K0 and K1 in units of 10^-4, K2 in units of 10^-8.
ghost use Rattle.std.specs.Prelude.{◌≡◌};
ghost use Rattle.product.specs.Lines.{covers, line_for};

use super::ApiRule;

/// The constants of a rule over a range of densities.
#[derive(Clone, Copy)]
pub struct Line {
    pub rule: ApiRule,
    pub low: u32,
    pub high: u32,
    pub k0: u32,
    pub k1: u32,
    pub k2: i32,
}

const LINES: [Line; 6] = [
    Line {
        rule: ApiRule::Crude,
        low: 1221,
        high: 2150,
        k0: 6139723,
        k1: 0,
        k2: 0,
    },
    Line {
        rule: ApiRule::Products,
        low: 1306,
        high: 1540,
        k0: 3464228,
        k1: 4388,
        k2: 0,
    },
    Line {
        rule: ApiRule::Products,
        low: 1541,
        high: 1575,
        k0: 26803206,
        k1: 0,
        k2: -336312,
    },
    Line {
        rule: ApiRule::Products,
        low: 1576,
        high: 1677,
        k0: 5945418,
        k1: 0,
        k2: 0,
    },
    Line {
        rule: ApiRule::Products,
        low: 1678,
        high: 2150,
        k0: 1869696,
        k1: 4862,
        k2: 0,
    },
    Line {
        rule: ApiRule::Lubricants,
        low: 1600,
        high: 2328,
        k0: 0,
        k1: 6278,
        k2: 0,
    },
];

impl Line {
    fn covers(&self, rule: ApiRule, density: u32) -> bool
        ensures { result ≡ covers rule density self.now }
    {
        self.rule == rule && (self.low..=self.high).contains(&density)
    }
}

/// The line of a rule that covers a density.
pub(crate) fn line_for(rule: ApiRule, density: u32) -> Option<Line>
    ensures { result ≡ line_for rule density }
{
    LINES
        .iter()
        .find(|line| line.covers(rule, density))
        .copied()
}
