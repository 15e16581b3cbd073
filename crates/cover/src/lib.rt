// Where bytes of the unit stand in a lent window.
#![tactic(auto)]

ghost use Rattle.std.specs.Prelude.{◌≡◌, cond, ◌+◌, ◌-◌, ◌*◌, leb, None};
ghost use Rattle.cover.specs.Cover.{position_of, fits_at, cover_of, too_long, lent_place};

// The bytes of a window at most.
const MOST_WINDOW: usize = 65536;

// Whether a window has too many bytes.
pub fn too_long(len: usize) -> bool
    ensures { result ≡ too_long len }
{
    MOST_WINDOW < len
}

// Where the n bytes from an offset past the start of a block on begin in a window, if it is not too long and holds them all.
pub fn lent_place(block: u64, offset: u32, n: usize, start: u64, len: usize) -> Option<usize>
    ensures { result ≡ lent_place (position_of block offset) n start len }
{
    // more bytes than a window may have are in none
    if too_long(len) || too_long(n) {
        return None;
    }
    covered(block, offset, n as u32, start, len)
}

// Where the n bytes from an offset past the start of a block on begin in a window of len bytes that starts at a block, if it holds them all.
pub fn covered(block: u64, offset: u32, n: u32, start: u64, len: usize) -> Option<usize>
    ensures { result ≡ cover_of (position_of block offset) n start len }
{
    if start <= block {
        after_start(block - start, offset, n, len)
    } else {
        before_start(start - block, offset, n, len)
    }
}

// The same where the block is so many blocks past the window's first.
fn after_start(blocks: u64, offset: u32, n: u32, len: usize) -> Option<usize>
    ensures { result ≡ fits_at (position_of blocks offset) n len }
{
    let at = blocks.checked_mul(512)?.checked_add(offset as u64)?;
    fits_at(at, n, len)
}

// The same where the window's first block is so many blocks past the block.
fn before_start(blocks: u64, offset: u32, n: u32, len: usize) -> Option<usize>
    ensures { result ≡ cond (leb (512 * blocks) offset) (fits_at (offset - 512 * blocks) n len) None }
{
    let at = (offset as u64).checked_sub(blocks.checked_mul(512)?)?;
    fits_at(at, n, len)
}

// A place, if the n bytes from it on are among len.
fn fits_at(at: u64, n: u32, len: usize) -> Option<usize>
    ensures { result ≡ fits_at at n len }
{
    if at.checked_add(n as u64)? <= len as u64 {
        Some(at as usize)
    } else {
        None
    }
}
