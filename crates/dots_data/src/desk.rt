use dots_registry::Registry;
use dots_settings::Settings;
use std::alloc::Global;

/// What a decision stands on.
#[derive(Clone, Copy)]
pub struct Desk<'a> {
    /// Where memory comes from.
    pub alloc: Global,
    pub settings: &'a Settings,
    /// What the history comes to.
    pub registry: &'a Registry,
}
