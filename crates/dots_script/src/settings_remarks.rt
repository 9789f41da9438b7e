//! What is to be mended in a line of the settings that is at fault.

ghost use Rattle.std.specs.Prelude.{◌≡◌, map};
ghost use Rattle.dots_settings.specs.Admitting.{form_value};
ghost use Rattle.dots_script.specs.Remarks.{twice_remark, unknown_remark, many_remark, form_remark, remark_of};

use crate::reason::Reason;
use crate::remark::Remark;
use dots_settings::{Form, SettingsFault, read_form};

/// What is to be mended in a line with these fields that has this fault. `past` says whether the file is too long in this line.
pub fn remark_of(fault: SettingsFault, past: bool, fields: &[&[u8]]) -> Remark
    ensures { result ≡ remark_of fault past (map (λ field. field.now) fields.now) }
{
    if past {
        return Remark::of_line(Reason::TooLarge);
    }
    match read_form(fields) {
        Ok(form) => form_remark(fault, &form),
        Err(complaint) => Remark::of_complaint(complaint),
    }
}

/// What is to be mended in a line of this form.
fn form_remark(fault: SettingsFault, form: &Form<'_>) -> Remark
    ensures { result ≡ form_remark fault (form_value form.now) }
{
    match fault {
        SettingsFault::Twice { .. } => twice_remark(form),
        SettingsFault::Unknown { .. } => unknown_remark(form),
        SettingsFault::Overlap { a, .. } => Remark::of_field(Reason::Overlap { first: a }, 2),
        SettingsFault::Capacity { .. } => many_remark(form),
        _ => Remark::of_line(Reason::Form),
    }
}

/// That what the line gives stands already.
fn twice_remark(form: &Form<'_>) -> Remark
    ensures { result ≡ twice_remark (form_value form.now) }
{
    match form {
        Form::Domain { .. } => Remark::of_field(Reason::DomainTwice, 1),
        Form::Client { .. } => Remark::of_field(Reason::PeerTwice, 1),
        Form::Gateway { .. } => Remark::of_field(Reason::PeerTwice, 1),
        Form::Upstream { .. } => Remark::of_field(Reason::UpstreamTwice, 1),
        Form::Ceiling { .. } => Remark::of_line(Reason::CeilingTwice),
        Form::Indefinite { .. } => Remark::of_line(Reason::IndefiniteTwice),
        Form::Capacity { .. } => Remark::of_field(Reason::CapacityTwice, 1),
        _ => Remark::of_line(Reason::Twice),
    }
}

/// That the domain of the line isn't declared.
fn unknown_remark(form: &Form<'_>) -> Remark
    ensures { result ≡ unknown_remark (form_value form.now) }
{
    match form {
        Form::Client { .. } => Remark::of_field(Reason::UnknownDomain, 2),
        _ => Remark::of_field(Reason::UnknownDomain, 1),
    }
}

/// That the line passes a limit.
fn many_remark(form: &Form<'_>) -> Remark
    ensures { result ≡ many_remark (form_value form.now) }
{
    match form {
        Form::Domain { .. } => Remark::of_field(Reason::ManyDomains, 1),
        Form::Prefix { .. } => Remark::of_field(Reason::ManyPrefixes, 1),
        Form::Client { .. } => Remark::of_field(Reason::ManyPeers, 1),
        Form::Gateway { .. } => Remark::of_field(Reason::ManyGateways, 1),
        Form::Name { .. } => Remark::of_field(Reason::ManyNames, 1),
        Form::Capacity { what, .. } => {
            let most = what.greatest();
            Remark::of_field(Reason::OutOfRange { most }, 2)
        }
        Form::Packet(_) => Remark::of_line(Reason::ManyPackets),
        _ => Remark::of_line(Reason::Many),
    }
}
