//! The image of an accepted program is linked and saved.
ghost use Rattle.std.specs.Prelude.{◌≤◌, IfOk};
ghost use Rattle.fac_lang.specs.declared.program.Program.{Program as Source};
ghost use Rattle.fac_tool.specs.Saved.{IsBuilt, Saves};
ghost use Rattle.fac_tool.specs.SeenObjects.{files_seen};
ghost use Rattle.fac_tool.specs.inner.Stops.{Carried, StandsForSafe};

use crate::ended::{bare, reported};
use crate::linking::link;
use crate::{Ended, Report};
use fac_base::{Bytes, Memory, Text};
use fac_check::Checked;
use fac_io::{Files, SaveFault};
use fac_notes::status::{NO_MEMORY, SUCCESS};
use fac_par::{Gate, Workers};
use std::thread::Threads;

// The bytes of the image of an accepted program.
fn image_bytes<R: Threads + Sync, G: Gate + Sync>(
    workers: &Workers<'_, R, G>,
    checked: Checked,
) -> Result<Bytes, Memory>
    requires { (P : Source) × StandsForSafe checked.closed P }
    ensures { IfOk result (λ bytes. (P : Source) → StandsForSafe checked.closed P → IsBuilt P bytes) }
{
    let linked = link(workers, checked)?;
    Ok(linked.bytes)
}

/// Saves the image of an accepted program under a name.
pub fn save_image<R: Threads + Sync, G: Gate + Sync, F: Files>(
    workers: &Workers<'_, R, G>,
    checked: Checked,
    name: &str,
    files: &mut F,
) -> Ended
    requires { (P : Source) × StandsForSafe checked.closed P }
    ensures saves { (P : Source) → StandsForSafe checked.closed P → Saves P name.now (files_seen F.held F.asked F.faults files.old files.new) result }
    ensures count { F.faults files.old ≤ F.faults files.new }
{
    let Ok(bytes) = image_bytes(workers, checked) else {
        return bare(NO_MEMORY, 0);
    };
    let Ok(file) = Text::from_str(workers.alloc, name) else {
        return bare(NO_MEMORY, 0);
    };
    match files.save(workers.alloc, name, bytes.as_slice()) {
        Ok(()) => bare(SUCCESS, 0),
        Err(SaveFault::Failed) => reported(0, Report::File { name: file }),
        Err(SaveFault::Memory) => bare(NO_MEMORY, 0),
    }
}
