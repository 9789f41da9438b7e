//! When a row and a list end.

ghost use Rattle.std.specs.Prelude.{◌≡◌, ℕ, List, Some};
ghost use Rattle.dots_history.specs.declared.entry.Entry.{Entry};
ghost use Rattle.filter_table.specs.TableRows.{waits};
ghost use Rattle.live_mitigations.specs.LiveViews.{row_view};
ghost use Rattle.dots_registry.specs.RegistryValues.{Represents, IsOf, time_of};
ghost use Rattle.host_checks.specs.Ends.{seconds_of, left_among, left_of_row, later_end, end_with, longest_from, left_of_list};

use acl_lists::{AclRow, Activation, ScrubRow};
use dots_registry::{Registry, StatusViews};
use dots_settings::Settings;
use live_mitigations::MitigationRow;

/// The status of a mitigation that waits for a lost signal (RFC 9132, section 4.4.2).
const WAITS: u8 = 8;

/// The seconds; None where the lifetime is indefinite.
fn seconds_of(left: i32) -> Option<u32>
    ensures { result ≡ seconds_of left }
{
    if left < 0 {
        return None;
    }
    Some(left as u32)
}

/// What is left of the first mitigation of this mid.
fn left_among(mid: u32, mut views: StatusViews<'_>) -> Option<u32>
    ensures { result ≡ left_among mid views.entry }
{
    while let Some(view) = views.next() {
        if view.put.mid == mid {
            return seconds_of(view.left);
        }
    }
    None
}

/// The seconds that are left of the mitigation of a row; None where it has no end.
#[tactic(auto, unfolding(crate::specs::Ends::left_of_row))]
pub fn left_of_row(settings: &Settings, registry: &Registry, row: &ScrubRow) -> Option<u32>
    requires { IsOf settings.now registry.now }
    ensures { (entries : List Entry) → Represents registry.now entries → result ≡ left_of_row settings.now (time_of registry.now) entries row.now }
{
    if row.domain < settings.domains() {
        return left_among(row.mid, registry.mitigations(row.domain, row.cuid.bytes()));
    }
    None
}

/// The later of two ends.
fn later_end(left: Option<u32>, other: Option<u32>) -> Option<u32>
    ensures { result ≡ later_end left other }
{
    match (left, other) {
        (Some(left), Some(other)) => Some(left.max(other)),
        (Some(_), None) => None,
        (None, _) => None,
    }
}

/// The later of an end and that of a mitigation, where it doesn't wait.
fn end_with(left: Option<u32>, view: &MitigationRow<'_>) -> Option<u32>
    ensures { result ≡ end_with left (row_view view.now) }
{
    if view.status == WAITS {
        return left;
    }
    later_end(left, seconds_of(view.left))
}

/// The end of the last of the mitigations that don't wait.
fn longest(mut views: StatusViews<'_>) -> Option<u32>
    ensures { result ≡ longest_from (Some 0) views.entry }
{
    let mut left = Some(0);
    while let Some(view) = views.next() {
        left = end_with(left, &view);
    }
    left
}

/// Whether a list is active while its client mitigates, and not else.
fn waits(activation: Activation) -> bool
    ensures { result ≡ waits activation }
{
    match activation {
        Activation::WhenMitigating => true,
        Activation::Immediate | Activation::Deactivate => false,
    }
}

/// The seconds for which a list stays active where nothing is asked for; None where it has no end.
#[tactic(auto, unfolding(crate::specs::Ends::left_of_list))]
pub fn left_of_list(settings: &Settings, registry: &Registry, row: &AclRow) -> Option<u32>
    requires { IsOf settings.now registry.now }
    ensures { (entries : List Entry) → Represents registry.now entries → result ≡ left_of_list settings.now (time_of registry.now) entries row.now }
{
    if waits(row.acl.activation) && row.domain < settings.domains() {
        return longest(registry.mitigations(row.domain, row.cuid.bytes()));
    }
    None
}
