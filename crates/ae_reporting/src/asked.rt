// A report that is asked for.
use ae_base::{Path, ProjectName};

/// A report that is asked for: of which project, where one is named, and the path of the file that it is.
#[derive(Clone, Copy)]
pub struct AskedReport<'a> {
    pub project: Option<&'a ProjectName>,
    pub path: &'a Path,
}
