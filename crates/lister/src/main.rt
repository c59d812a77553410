// The listing program: reads CAT.HDC and TAB.HDT in the folder where it is run, and prints the listing.
#![tactic(auto)]

ghost use Rattle.std.specs.Prelude.{◌≤◌, length};

use cells::lookup::count;
use listing::{last_line, listing_refusal, next_line};
use std::fs::File;
use std::io;
use std::io::Read;
use terms::Position;
use terms::statuses::number;

// What the file still gives, as much as fits: up to its end, or to a read that fails.
fn fill(file: &mut File, buf: &mut [u8]) -> usize
    ensures { result ≤ length buf.new }
{
    let mut at = 0;
    while at < buf.len() {
        match file.read(&mut buf[at..]) {
            Ok(0) => return at,
            Ok(n) => at += n,
            Err(_) => return at,
        }
    }
    at
}

// The bytes of a file, as many as fit: "a missing one counts as empty".
fn load(rt: &HostRuntime, path: &str, buf: &mut [u8]) -> usize
    ensures { result ≤ length buf.new }
{
    match File::open(rt, path) {
        Ok(mut file) => fill(&mut file, buf),
        Err(_) => 0,
    }
}

// The listing of these two blocks, a line at a time: at most n + 1 of them.
fn list(rt: &HostRuntime, cat: &[u8], tab: &[u8]) -> io::Result<()> {
    let mut out = [0u8; 262];
    let s = listing_refusal(cat, tab);
    if number(s) != 0 {
        let end = last_line(&mut out, s);
        return rt.write_all(&out[..end]);
    }
    let mut pos = Position::fresh();
    for _ in 0..=count(tab) {
        let line = next_line(cat, tab, pos, &mut out);
        rt.write_all(&out[..line.long])?;
        if line.done {
            return Ok(());
        }
        pos = line.position;
    }
    Ok(())
}

// A catalogue has at most 520 bytes and a table at most 65,536: one byte more shows a file that is too long.
fn main(rt: HostRuntime) -> io::Result<()> {
    let mut cat = [0u8; 521];
    let mut tab = [0u8; 65537];
    let k = load(&rt, "CAT.HDC", &mut cat);
    let m = load(&rt, "TAB.HDT", &mut tab);
    list(&rt, &cat[..k], &tab[..m])
}
