// Looks up the exceptions of a book by date and bank reference.

ghost use Rattle.std.specs.Prelude.{◌≡◌, IfOk};
ghost use Rattle.std.specs.List.{filter};
ghost use Rattle.statement_lines.specs.Lookups.{elements};
ghost use Rattle.statement_lines.specs.OpenLines.{is_named_like};

use crate::key::line_key;
use crate::lookup::Lookup;
use crate::statement_line::StatementLine;
use std::alloc::{AllocError, Global};
use std::marker::Model;
use trust_base::Line;

/// The exceptions of a book, looked up by date and bank reference.
///
/// Contracts see it as the list of the exceptions.
#[derive(Drop)]
pub struct ExceptionIndex<'a> {
    all: &'a [Line],
    found: Lookup<'a, Line>,
}

impl<'a> Model for ExceptionIndex<'a> {
    ghost use Rattle.std.specs.Prelude.{List};
    ghost use Rattle.trust_base.specs.declared.line.Line.{Line};
    ghost use Rattle.statement_lines.specs.Keys.{line_key};
    ghost use Rattle.statement_lines.specs.Lookups.{IsLookup};

    ghost Value = { List Line };

    ghost view = { λ e. e.all.now };

    ghost invariant = { λ e. IsLookup line_key e.all.now e.found.sorted.items };
}

impl<'a> ExceptionIndex<'a> {
    /// Makes the index from the list of exceptions. The only error is out of memory.
    pub fn of(alloc: Global, all: &'a [Line]) -> Result<ExceptionIndex<'a>, AllocError>
        ensures { IfOk result (λ exceptions. exceptions ≡ all.now) }
    {
        let found = Lookup::of(alloc, all, |line| line_key(line))?;
        Ok(ExceptionIndex { all, found })
    }

    /// The exceptions that may be the line with a reference. They include all that are, in their order.
    pub fn like(&self, line: &StatementLine) -> &[(u64, &'a Line)]
        ensures { filter (is_named_like line.now) (elements result.now) ≡ filter (is_named_like line.now) self.now }
    {
        self.found.at(line_key(line.line()))
    }
}
