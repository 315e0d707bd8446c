//! Bytes behind a text.
ghost use Rattle.std.specs.Prelude.{◌≡◌, ◌++◌, OnOk};
ghost use Rattle.cel_print.specs.Spelled.{closing, opening};

use event_types::Memory;

/// Puts bytes behind a text.
pub(crate) fn append(text: &mut Vec<u8>, bytes: &[u8]) -> Result<(), Memory>
    ensures { OnOk result (text.new.items ≡ text.old.items ++ bytes.now) }
{
    text.extend_from_slice(bytes)?;
    Ok(())
}

/// Opens a parenthesis before what may not stand there bare.
pub(crate) fn open_unless(text: &mut Vec<u8>, bare: bool) -> Result<(), Memory>
    ensures { OnOk result (text.new.items ≡ text.old.items ++ opening bare) }
{
    if bare { Ok(()) } else { append(text, b"(") }
}

/// Closes the parenthesis behind it.
pub(crate) fn close_unless(text: &mut Vec<u8>, bare: bool) -> Result<(), Memory>
    ensures { OnOk result (text.new.items ≡ text.old.items ++ closing bare) }
{
    if bare { Ok(()) } else { append(text, b")") }
}
