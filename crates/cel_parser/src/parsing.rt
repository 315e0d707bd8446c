//! From tokens to a file.
ghost use Rattle.std.specs.Prelude.{◌≢◌, IfErr, IfOk};
ghost use Rattle.cel_parser.specs.Faults.{HasSyntaxFault};
ghost use Rattle.cel_parser.specs.Filed.{Reads};

use crate::fault::SyntaxFault;
use crate::file::File;
use crate::sentences::read_sentence;
use cel_lexer::Tokens;
use event_types::List;
use std::alloc::Global;

/// The statements of a text, or its first fault.
pub fn parse(alloc: Global, tokens: &Tokens<'_>) -> Result<File, SyntaxFault>
    ensures ok { IfOk result (λ file. Reads tokens.now.source file) }
    ensures err { IfErr result (λ fault. fault ≢ SyntaxFault.Memory → HasSyntaxFault tokens.now.source fault) }
{
    let mut symbols = Vec::new(alloc);
    let mut statements = List::new(alloc);
    let mut lines = List::new(alloc);
    let mut at = 0;
    while at < tokens.size() {
        let number = statements.len() as u64 + 1;
        let line = tokens.get(at).line;
        let (statement, next) = read_sentence(alloc, tokens, at, number, line, &mut symbols)?;
        statements.add(statement)?;
        lines.add(line)?;
        at = next;
    }
    Ok(File::of(statements, lines))
}
