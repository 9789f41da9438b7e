ghost use Rattle.std.specs.Prelude.{◌≡◌, ◌<◌, ◌≤◌, IsNone, IsSomeAnd, Some, None};

use std::marker::Model;

/// The ports from the lower to the upper, both among them.
#[derive(Clone, Copy)]
pub struct PortRange {
    lower: u16,
    upper: u16,
}

impl Model for PortRange {
    ghost use Rattle.std.specs.Prelude.{◌≤◌};
    ghost use Rattle.ip_scope.specs.Ports.{Ports};

    ghost Value = { Ports };

    ghost view = { λ range. record { lower = range.lower; upper = range.upper } };

    ghost invariant = { λ range. range.lower ≤ range.upper };

    ghost inverse = { λ ports. record { lower = ports.lower; upper = ports.upper } };
}

impl PortRange {
    /// The range, or None exactly where the upper port is below the lower.
    pub fn new(lower: u16, upper: u16) -> Option<PortRange>
        ensures some { lower ≤ upper → result ≡ Some (record { lower = lower; upper = upper }) }
        ensures none { upper < lower → result ≡ None }
    {
        if upper < lower {
            return None;
        }
        Some(PortRange { lower, upper })
    }

    /// The lowest port.
    pub fn lower(&self) -> u16
        ensures value { result ≡ self.now.lower }
        ensures ordered { self.now.lower ≤ self.now.upper }
    {
        let _upper = self.upper;
        self.lower
    }

    /// The highest port.
    pub fn upper(&self) -> u16
        ensures value { result ≡ self.now.upper }
        ensures ordered { self.now.lower ≤ self.now.upper }
    {
        let _lower = self.lower;
        self.upper
    }
}
