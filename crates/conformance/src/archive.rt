// An archive in the form txtar, cut at its markers.

use std::alloc::{AllocError, Global};

/// A marker with the text below it.
#[derive(Drop)]
pub struct Section {
    pub name: String,
    /// The line of the marker, from 1.
    pub line: u64,
    pub text: String,
}

impl Section {
    /// The title of the row that begins here, if one does.
    pub fn title(&self) -> Option<&str> {
        self.name.as_str().strip_prefix("row ")
    }
}

/// The name of a marker line.
fn marked(line: &str) -> Option<&str> {
    let line = line.strip_suffix('\n').unwrap_or(line);
    line.strip_prefix("-- ")?.strip_suffix(" --")
}

/// The sections of an archive. What stands before the first is a comment.
pub fn sections(alloc: Global, archive: &str) -> Result<Vec<Section>, AllocError> {
    let mut sections: Vec<Section> = Vec::new(alloc);
    let mut number = 0u64;
    for line in archive.split_inclusive('\n') {
        number = number.saturating_add(1);
        if let Some(name) = marked(line) {
            sections.push(Section {
                name: String::from_str(alloc, name)?,
                line: number,
                text: String::new(alloc),
            })?;
        } else if let Some(section) = sections.last_mut() {
            section.text.push_str(line)?;
        }
    }
    Ok(sections)
}
