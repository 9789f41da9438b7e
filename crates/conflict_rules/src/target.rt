ghost use Rattle.std.specs.Prelude.{◌≡◌, ◌≤◌, length};
ghost use Rattle.conflict_rules.specs.AskableTargets.{target_text};

/// Why a scope can't be asked for.
#[derive(Clone, Copy)]
pub enum TargetFault {
    /// It meets loopback, multicast or limited broadcast.
    NotATarget,
    /// It doesn't lie inside a prefix of the domain that it is asked for.
    OutsideDomain,
    /// The settings don't have this host name.
    UnknownName,
}

impl TargetFault {
    /// The text of the refusal, its diagnostic payload (RFC 7252, section 5.5.2).
    pub fn text(self) -> &'static [u8]
        ensures text { result.now ≡ target_text self }
        ensures short { length result.now ≤ 28 }
    {
        match self {
            TargetFault::NotATarget => b"not a target",
            TargetFault::OutsideDomain => b"outside domain",
            TargetFault::UnknownName => b"unknown name",
        }
    }
}
