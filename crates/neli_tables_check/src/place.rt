//! Paths by names.

ghost use Rattle.std.specs.Prelude.{◌≡◌, Some};
ghost use Rattle.std.specs.Option.{option_map};
ghost use Rattle.neli_tables.specs.Lines.{line_view};
ghost use Rattle.neli_tables_check.specs.Paths.{attr_name, later_text, path_text, step_name};
ghost use Rattle.neli_tables_check.specs.Paths.{step_text};

use neli_tables::{Line, Table, Word};
use neli_tables_walk::{Name, Path, Step};
use std::fmt;

/// A path by the names of a table, with dots between them: an attribute without a row of its own by
/// its number, a hop as `hop`, and where the path has no steps, `body`.
#[derive(Clone, Copy)]
pub struct PathText<'p, 'w, 't> {
    /// The table.
    pub table: &'w Table<'t>,
    /// The steps of the path.
    pub steps: &'p [Step],
}

impl fmt::Display for PathText<'_, '_, '_> {
    ghost output = { λ p. Some (path_text p.table.now p.steps.now) };

    fn fmt<W: fmt::Write>(&self, f: &mut fmt::Formatter<W>) -> fmt::Result {
        match self.steps {
            [] => write!(f, "body"),
            [first, later @ ..] => {
                let table = self.table;
                let first = StepText {
                    table,
                    step: *first,
                };
                let later = LaterSteps {
                    table,
                    steps: later,
                };
                write!(f, "{first}{later}")
            }
        }
    }
}

/// Steps, each after a dot.
#[derive(Clone, Copy)]
struct LaterSteps<'p, 'w, 't> {
    table: &'w Table<'t>,
    steps: &'p [Step],
}

impl fmt::Display for LaterSteps<'_, '_, '_> {
    ghost output = { λ s. Some (later_text s.table.now s.steps.now) };

    fn fmt<W: fmt::Write>(&self, f: &mut fmt::Formatter<W>) -> fmt::Result {
        for step in self.steps {
            let text = StepText {
                table: self.table,
                step: *step,
            };
            write!(f, ".{text}")?;
        }
        Ok(())
    }
}

/// An attribute, by its path and the table that names it. It is printed as [`PathText`].
#[derive(Drop)]
pub struct Place<'w, 't> {
    /// The table.
    pub table: &'w Table<'t>,
    /// The path.
    pub path: Path,
}

impl fmt::Display for Place<'_, '_> {
    ghost output = { λ p. Some (path_text p.table.now p.path.steps.items) };

    fn fmt<W: fmt::Write>(&self, f: &mut fmt::Formatter<W>) -> fmt::Result {
        let text = PathText {
            table: self.table,
            steps: self.path.steps(),
        };
        write!(f, "{text}")
    }
}

/// A part of a path.
#[derive(Clone, Copy)]
struct StepText<'w, 't> {
    table: &'w Table<'t>,
    step: Step,
}

impl<'w, 't> StepText<'w, 't> {
    /// The name of the attribute's own row.
    fn name(&self) -> Option<Name<'t>>
        ensures { option_map (λ name. name.0.now) result
            ≡ step_name self.now.table.now self.now.step.row }
    {
        attr_name(self.table.line(self.step.row?)?)
    }
}

/// The name of a row, where that is an attribute's own.
fn attr_name<'t>(line: &Line<'t>) -> Option<Name<'t>>
    ensures { option_map (λ name. name.0.now) result ≡ attr_name (line_view line.now) }
{
    match line.word {
        Word::Attr => Some(Name(line.name)),
        _ => None,
    }
}

impl fmt::Display for StepText<'_, '_> {
    ghost output = { λ s. Some (step_text s.table.now s.step) };

    fn fmt<W: fmt::Write>(&self, f: &mut fmt::Formatter<W>) -> fmt::Result {
        match (self.name(), self.step.number) {
            (Some(name), _) => write!(f, "{name}"),
            (None, Some(number)) => write!(f, "{number}"),
            (None, None) => write!(f, "hop"),
        }
    }
}
