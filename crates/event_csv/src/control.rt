//! Control lines.
ghost use Rattle.std.specs.Prelude.{◌≡◌, IfErr, IfOk, IsTrue, Ok, Err};
ghost use Rattle.event_csv.specs.Control.{asked, control_of, is_control};
ghost use Rattle.event_csv.specs.Fed.{IsLine};

/// What a control line asks for.
#[derive(Clone, Copy, PartialEq, Eq, Debug)]
pub enum Control<'a> {
    /// The query of this text is to come: `SELECT * FROM Stock PUBLISH All;` in
    /// `>ADD SELECT * FROM Stock PUBLISH All;`.
    Add(&'a [u8]),
    /// The query of this name is to leave: `All` in `>DROP All`.
    Remove(&'a str),
}

/// Why a line is no control line.
#[derive(Clone, Copy, PartialEq, Eq, Debug)]
pub enum ControlError {
    /// The line isn't UTF-8, as `>DROP \xFF` with the one byte FF.
    NotUtf8,
    /// The line begins neither with `>ADD ` nor with `>DROP `: `>STOP`.
    BadForm,
}

/// What a line that begins with `>` asks for. Takes no memory.
pub fn read_control(line: &[u8]) -> Result<Control<'_>, ControlError>
    requires line { IsLine line.now }
    requires control { IsTrue (is_control line.now) }
    ensures ok { IfOk result (λ control. control_of line.now ≡ Ok (asked control)) }
    ensures err { IfErr result (λ why. control_of line.now ≡ Err why) }
{
    let Ok(text) = std::str::from_utf8(line) else {
        return Err(ControlError::NotUtf8);
    };
    if let Some(query) = line.strip_prefix(b">ADD ") {
        return Ok(Control::Add(query));
    }
    match text.strip_prefix(">DROP ") {
        Some(name) => Ok(Control::Remove(name)),
        None => Err(ControlError::BadForm),
    }
}
