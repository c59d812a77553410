// The listing: each line as bytes in a buffer, made of what the reader answers. The lines one behind the other are the whole text (proofs/Lines.antt).
#![tactic(auto)]

mod text;

ghost use Rattle.std.specs.Prelude.{◌≡◌, ◌+◌, ◌*◌, ◌≤◌, length};
ghost use Rattle.rules.specs.Listing.{cell_line, last_line};
ghost use Rattle.answers.specs.Ready.{SoundFor};
ghost use Rattle.listing.specs.Written.{Wrote};
ghost use Rattle.listing.specs.Lines.{Listed, listing_refusal};

use crate::text::{put_byte, put_decimal, put_hex, put_letters};
use blocks::wide;
use reader::read_next;
use terms::statuses::number;
use terms::{Answer, Position, Status};

// A line that was written: the position after its call, how many bytes it has, and whether it is the last. `done` is no variant, since the position is
// promised behind the last line too.
#[derive(Clone, Copy)]
pub struct Line {
    pub position: Position,
    pub long: usize,
    pub done: bool,
}

// "cell, type, level, status (-- for blank) and the L data bytes in upper-case hex, one space between, each line ended by LF"
fn cell_line(out: &mut [u8], a: Answer, area: &[u8]) -> usize
    requires { (a.length ≤ length area.now) × (22 + 2 * a.length ≤ length out.old) }
    ensures { Wrote 0 (cell_line a area.now) out.old result out.new × (result ≤ 22 + 2 * a.length) }
{
    let cell_end = put_decimal(out, 0, a.position.cell().0);
    let type_start = put_byte(out, cell_end, 0x20);
    let type_end = put_decimal(out, type_start, wide(a.code.0));
    let level_start = put_byte(out, type_end, 0x20);
    let level_end = put_decimal(out, level_start, wide(a.level));
    let status_start = put_byte(out, level_end, 0x20);
    let status_end = put_letters(out, status_start, a.status);
    let data_start = put_byte(out, status_end, 0x20);
    let long = wide(a.length);
    let data_end = put_hex(out, data_start, &area[..long]);
    put_byte(out, data_end, 0x0A)
}

// "the last line is the final status letters"
pub fn last_line(out: &mut [u8], s: Status) -> usize
    requires { 3 ≤ length out.old }
    ensures { Wrote 0 (last_line s) out.old result out.new × (result ≡ 3) }
{
    let next = put_letters(out, 0, s);
    put_byte(out, next, 0x0A)
}

// CX, or TX, or blank where the lines can be listed: "a longer file is TX, after CX". A status as those of the checks (R65), which it hands on: a Result of
// it would be no plainer.
pub fn listing_refusal(cat: &[u8], tab: &[u8]) -> Status
    ensures { result ≡ listing_refusal cat.now tab.now }
{
    let s = catalogue_check::check::check(cat);
    if number(s) != 0 {
        return s;
    }
    if 65536 < tab.len() {
        return Status::TX;
    }
    table_check::check::check(cat, tab)
}

// "issues GN with an empty list": the line of one such call, as the reader answers it. It is at most 262 bytes.
pub fn next_line(cat: &[u8], tab: &[u8], pos: Position, out: &mut [u8]) -> Line
    requires { SoundFor cat.now tab.now pos × (262 ≤ length out.old) }
    ensures { Listed cat.now tab.now pos out.old result out.new }
{
    let mut area = [0u8; 120];
    let a = read_next(cat, tab, &cat[..0], &cat[..0], pos, &mut area);
    let done = 10 <= number(a.status);
    let long = if done {
        last_line(out, a.status)
    } else {
        cell_line(out, a, &area)
    };
    Line {
        position: a.position,
        long,
        done,
    }
}
