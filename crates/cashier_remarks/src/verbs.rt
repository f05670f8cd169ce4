// The verbs of records, as a person types them.

use day_sheet::FORMS;
use std::fmt;

// The verb of a record that is about no matter.
const DISMISS: &str = "dismiss";

/// Returns the verb that is meant by a name with other letter case, or with blanks around it.
pub fn verb_meant(name: &[u8]) -> Option<&'static str> {
    let word = name.trim_ascii();
    for form in FORMS {
        if word.eq_ignore_ascii_case(form.name.as_bytes()) {
            return Some(form.name);
        }
    }
    if word.eq_ignore_ascii_case(DISMISS.as_bytes()) {
        Some(DISMISS)
    } else {
        None
    }
}

/// The names of all verbs of a sheet, with commas between them.
#[derive(Clone, Copy)]
pub struct VerbNames;

impl fmt::Display for VerbNames {
    fn fmt<W: fmt::Write>(&self, f: &mut fmt::Formatter<W>) -> fmt::Result {
        for form in FORMS {
            f.write_str(form.name)?;
            f.write_str(", ")?;
        }
        f.write_str(DISMISS)
    }
}
