//! Files: what query texts are read as.
ghost use Rattle.std.specs.Prelude.{◌≡◌, ◌<◌, length, map, slice_get, Some};
ghost use Rattle.cel_parser.specs.Filed.{Filed, IsRead};

use cel_grammar::Statement;
use event_types::List;
use std::marker::Model;

/// The statements of a query text and their lines: what some text reads as.
pub struct File {
    statements: List<Statement>,
    lines: List<u64>,
}

// A caller that lets a file go makes one call, where a derive would take each part apart at each place.
impl Drop for File {
    fn drop(self) {
        let File {
            statements: _statements,
            lines: _lines,
        } = self;
    }
}

impl Model for File {
    ghost use Rattle.cel_parser.specs.Filed.{Filed, IsRead, filed_code};

    ghost Value = { Filed };

    ghost coded = { filed_code };

    ghost view = { λ f. record { statements = f.statements; lines = f.lines } };

    ghost invariant = { λ f. IsRead (record { statements = f.statements; lines = f.lines }) };
}

impl File {
    /// The file of these statements and their lines.
    pub(crate) fn of(statements: List<Statement>, lines: List<u64>) -> File
        requires { IsRead (record { statements = statements; lines = lines }) }
        ensures statements { result.statements ≡ statements }
        ensures lines { result.lines ≡ lines }
    {
        File { statements, lines }
    }

    /// How many statements it has.
    pub fn size(&self) -> usize
        ensures value { result ≡ length self.now.statements }
        ensures lines { result ≡ length self.now.lines }
        ensures is_read { IsRead self.now }
    {
        self.statements.len()
    }

    /// The statement at a place, counted from 0.
    pub fn statement(&self, i: usize) -> &Statement
        requires { i < length self.now.statements }
        ensures { slice_get self.now.statements i ≡ Some result.now }
    {
        self.statements.get(i)
    }

    /// The line of the first token of the statement at a place, counted from 1; the place from 0.
    pub fn line(&self, i: usize) -> u64
        requires { i < length self.now.statements }
        ensures { slice_get self.now.lines i ≡ Some result }
    {
        *self.lines.get(i)
    }
}
