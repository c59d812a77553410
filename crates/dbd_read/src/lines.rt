// The lines of a text, one after the other (R73, R78).
ghost use Rattle.std.specs.Prelude.{◌≡◌};
ghost use Rattle.statements.specs.Dbd.{dbd_read};
ghost use Rattle.dbd_read.specs.Reading.{Read, Fresh};

use crate::LineFault;
use dbd_draft::Fault;
use dbd_draft::lines::take_line;

// R78: the first fault is told with its line; the end is a line too, and bad without a SEGM.
pub(crate) fn read_lines(
    draft: &mut [u8],
    levels: &mut [u8; 33],
    text: &[u8],
) -> Result<(), LineFault>
    requires { Fresh draft.old levels.old }
    ensures { Read result draft.new (dbd_read text.now) }
{
    let mut line = 1;
    for part in text.split_inclusive(|byte| *byte == b'\n') {
        let words = part.strip_suffix(b"\n".as_slice()).unwrap_or(part);
        take_line(draft, levels, words).map_err(|fault| LineFault { fault, line })?;
        line += 1;
    }
    if draft[5] == 0 {
        return Err(LineFault {
            fault: Fault::Misplaced,
            line,
        });
    }
    Ok(())
}
