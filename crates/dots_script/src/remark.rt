ghost use Rattle.std.specs.Prelude.{◌≡◌};
ghost use Rattle.dots_script.specs.Remarks.{of_field, of_line, of_complaint};

use crate::reason::Reason;
use dots_settings::Complaint;

/// What is to be mended in a line: why, and the field where, counted from 0, or the whole line.
#[derive(Clone, Copy)]
pub struct Remark {
    pub reason: Reason,
    pub field: Option<usize>,
}

impl Remark {
    /// That a field is to be mended.
    pub fn of_field(reason: Reason, field: usize) -> Self
        ensures { result ≡ of_field reason field }
    {
        Remark {
            reason,
            field: Some(field),
        }
    }

    /// Why a line of the settings has none of the forms.
    pub fn of_complaint(complaint: Complaint) -> Self
        ensures { result ≡ of_complaint complaint }
    {
        Remark {
            reason: Reason::Mistake(complaint.mistake),
            field: complaint.field,
        }
    }

    /// That the whole line is.
    pub fn of_line(reason: Reason) -> Self
        ensures { result ≡ of_line reason }
    {
        Remark {
            reason,
            field: None,
        }
    }
}
