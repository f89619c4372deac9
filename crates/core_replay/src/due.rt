//! The lines that are to come.

use std::alloc::Global;

/// The lines that a core gave, each with its newline, and how many of their bytes were met.
#[derive(Drop)]
pub struct Due {
    lines: String,
    met: usize,
}

impl Due {
    pub fn new(alloc: Global) -> Due {
        Due {
            lines: String::new(alloc),
            met: 0,
        }
    }

    /// No line is due any more. The text to which those are added that are due now.
    pub fn anew(&mut self) -> &mut String {
        self.lines.clear();
        self.met = 0;
        &mut self.lines
    }

    /// The next line, if one is due.
    pub fn next(&mut self) -> Option<&str> {
        let left = self.lines.as_str().get(self.met..)?;
        let (line, _) = left.split_once('\n')?;
        self.met = self.met.saturating_add(line.len()).saturating_add(1);
        Some(line)
    }
}
