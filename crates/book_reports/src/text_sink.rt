//! A text that grows by a line for each exception.

ghost use Rattle.std.specs.Prelude.{◌≡◌, ◌++◌};
ghost use Rattle.trust_reports.specs.TextsOfLists.{exception_line};

use firm_rows::RowSink;
use std::alloc::AllocError;
use std::marker::Model;
use trust_base::Line;
use trust_reports::exception_line;

/// Writes a line for each exception, as it is received.
///
/// Contracts see it as the text so far.
#[derive(Drop)]
pub struct TextSink {
    text: Vec<u8>,
}

impl Model for TextSink {
    ghost use Rattle.std.specs.Prelude.{ℕ, List};

    ghost Value = { List ℕ };

    ghost view = { λ s. s.text.items };
}

impl TextSink {
    /// Begins below a heading.
    pub fn below(heading: Vec<u8>) -> TextSink
        ensures { result ≡ heading.items }
    {
        TextSink { text: heading }
    }

    /// Returns the text.
    pub fn finish(self) -> Vec<u8>
        ensures { result.items ≡ self }
    {
        self.text
    }
}

impl RowSink<Line> for TextSink {
    ghost taken = { λ text line. text ++ exception_line line };

    fn take(&mut self, line: &Line) -> Result<(), AllocError> {
        exception_line(line, &mut self.text)
    }
}
