// One line after those that made the draft.
ghost use Rattle.std.specs.Prelude.{◌≡◌};
ghost use Rattle.statements.specs.Draft.{line_taken};
ghost use Rattle.dbd_draft.specs.Kept.{draft_of, Sound, Left};

use crate::Fault;
use crate::fields::take_field;
use crate::segments::{take_dbd, take_segm};
use dbd_line::Line;
use dbd_line::forms::line_of;

pub fn take_line(draft: &mut [u8], levels: &mut [u8; 33], line: &[u8]) -> Result<(), Fault>
    requires { Sound draft.old levels.old }
    ensures { Left result draft.new levels.new (line_taken (draft_of draft.old) line.now) }
{
    match line_of(line).ok_or(Fault::Misplaced)? {
        Line::Empty => Ok(()),
        Line::IsDbd(name) => take_dbd(draft, levels, &line[name.from..name.to]),
        Line::IsSegm(name, parent, long) => {
            let word = &line[name.from..name.to];
            take_segm(draft, levels, word, &line[parent.from..parent.to], long)
        }
        Line::IsField(name, kind, long, start) => {
            take_field(draft, levels, &line[name.from..name.to], kind, long, start)
        }
    }
}
