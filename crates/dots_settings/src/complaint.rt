ghost use Rattle.std.specs.Prelude.{◌≡◌};
ghost use Rattle.dots_settings.specs.Form.{of_field, of_line};

use crate::mistake::Mistake;

/// Why a line has none of the ten forms, and the first field at fault, counted from 0, or None for the whole line.
#[derive(Clone, Copy)]
pub struct Complaint {
    pub mistake: Mistake,
    pub field: Option<usize>,
}

impl Complaint {
    /// That a field is at fault.
    pub fn of_field(mistake: Mistake, field: usize) -> Self
        ensures { result ≡ of_field mistake field }
    {
        Complaint {
            mistake,
            field: Some(field),
        }
    }

    /// That the whole line is.
    pub fn of_line(mistake: Mistake) -> Self
        ensures { result ≡ of_line mistake }
    {
        Complaint {
            mistake,
            field: None,
        }
    }
}
