// Bytes that move within a lent part, and bytes that are written there.
ghost use Rattle.std.specs.Prelude.{◌≡◌, ◌++◌, ◌≤◌, ◌+◌, length, take, drop, replicate};
ghost use Rattle.std.proofs.Math.Seq.{paste};
ghost use Rattle.blocks.specs.Moves.{moved_up, moved_down};

// The 1,024 bytes from `from` on go to where `to` says, by way of an array: the compiler makes one move of that, as the C library has it, and no array
// is left.
fn carry(tail: &mut [u8], from: usize, to: usize)
    requires { (from + 1024 ≤ length tail.old) × (to + 1024 ≤ length tail.old) }
    ensures { tail.new ≡ paste tail.old to (drop from tail.old) 1024 }
{
    let mut page = [0u8; 1024];
    page.copy_from_slice(&tail[from..from + 1024]);
    tail[to..to + 1024].copy_from_slice(&page);
}

// Each byte goes up by `gap`; the last `gap` bytes are lost, and the first `gap` stay. By pages, the last of them first: `copy_within` alone goes byte by
// byte, which takes 1.6 times as long at 24,000 bytes.
pub fn shift_up(tail: &mut [u8], gap: usize)
    requires { gap ≤ length tail.old }
    ensures { tail.new ≡ moved_up gap tail.old }
{
    let mut i = tail.len() - gap;
    while 1024 <= i {
        i -= 1024;
        carry(tail, i, gap + i);
    }
    tail.copy_within(..i, gap);
}

// Each byte from `gap` on goes down by `gap`; the last `gap` bytes stay. By pages, as above.
pub fn shift_down(tail: &mut [u8], gap: usize)
    requires { gap ≤ length tail.old }
    ensures { tail.new ≡ moved_down gap tail.old }
{
    let n = tail.len() - gap;
    let mut i = 0;
    while i + 1024 <= n {
        carry(tail, gap + i, i);
        i += 1024;
    }
    tail.copy_within(gap + i.., i);
}

pub fn clear(tail: &mut [u8])
    ensures { tail.new ≡ replicate (length tail.old) 0 }
{
    tail.fill(0);
}

// The bytes `from` go over the first ones, one at a time; those behind stay. As a loop it leaves `put` without a frame, which `copy_from_slice` does not: that
// would cost each call a nanosecond of four.
fn put_each(tail: &mut [u8], from: &[u8])
    requires { length from.now ≤ length tail.old }
    ensures { tail.new ≡ from.now ++ drop (length from.now) tail.old }
{
    for i in 0..from.len() {
        tail[i] = from[i];
    }
}

// The first 16 of the bytes `from` go over the first ones, by way of an array: the compiler makes one load and one store of that.
fn hop(tail: &mut [u8], from: &[u8])
    requires { (16 ≤ length tail.old) × (16 ≤ length from.now) }
    ensures { tail.new ≡ take 16 from.now ++ drop 16 tail.old }
{
    let mut b = [0u8; 16];
    b.copy_from_slice(&from[..16]);
    tail[..16].copy_from_slice(&b);
}

// The bytes `from` go over the first ones; those behind stay. By hops of 16, of which the last overlaps the one before: `copy_from_slice` alone takes 1.6
// times as long at 16 to 40 bytes.
pub fn put(tail: &mut [u8], from: &[u8])
    requires { length from.now ≤ length tail.old }
    ensures { tail.new ≡ from.now ++ drop (length from.now) tail.old }
{
    let n = from.len();
    if n < 16 {
        put_each(tail, from);
        return;
    }
    let mut i = 0;
    while i + 16 <= n {
        hop(&mut tail[i..], &from[i..]);
        i += 16;
    }
    let last = n - 16;
    hop(&mut tail[last..], &from[last..]);
}
