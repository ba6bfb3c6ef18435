//! What came is heard.

ghost use Rattle.std.specs.Prelude.{◌≡◌, OnOk, IsOkUnless};
ghost use Rattle.gr_note.specs.Decode.{note_decoded};
ghost use Rattle.gr_client.specs.Run.{heard_of};

use crate::client::Client;
use gr_note::{NoteKind, decode};
use gr_out::RunFault;
use std::alloc::Global;

/// Hears the note that bytes spell. Bytes that spell none change nothing.
pub(crate) fn hear(alloc: Global, client: &mut Client, bytes: &[u8]) -> Result<(), RunFault>
    ensures heard { OnOk result (client.new ≡ heard_of client.old (note_decoded bytes.now)) }
    ensures cause { IsOkUnless result RunFault.Memory }
{
    match decode(alloc, bytes) {
        Ok(note) => {
            client.heard(&note);
            Ok(())
        }
        Err(fault) => match fault.kind {
            NoteKind::Memory => Err(RunFault::Memory),
            NoteKind::Short
            | NoteKind::BadMagic
            | NoteKind::BadVersion
            | NoteKind::BadKind
            | NoteKind::BadRange
            | NoteKind::BadEvent
            | NoteKind::Trailing => Ok(()),
        },
    }
}
