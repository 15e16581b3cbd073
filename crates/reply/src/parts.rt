// Bytes and words of four bytes written over the front of a buffer, as much of them as fits.
#![tactic(auto)]

ghost use Rattle.std.specs.List.{concat};
ghost use Rattle.std.specs.Prelude.{◌≡◌, ◌++◌, length};
ghost use Rattle.wire.specs.Bytes.{onto};

use wire::{put_at, put_front};

// Writes these bytes, and answers how many they are.
// kept: a writer answers how many bytes it wrote, here and in all that end in it, since the buffer is lent and longer than the reply (no heap)
pub(crate) fn put_all(bytes: &[u8], out: &mut [u8]) -> usize
    ensures value { result ≡ length bytes.now }
    ensures out_after { out.new ≡ onto bytes.now out.old }
{
    put_front(out, bytes);
    bytes.len()
}

// Writes these words, and answers how many bytes they are.
pub(crate) fn put_words(words: &[[u8; 4]], out: &mut [u8]) -> usize
    ensures value { result ≡ length (concat words.now) }
    ensures out_after { out.new ≡ onto (concat words.now) out.old }
{
    put_all(words.as_flattened(), out)
}

// Writes these words and then these bytes, and answers how many bytes all are.
pub(crate) fn put_words_then(words: &[[u8; 4]], bytes: &[u8], out: &mut [u8]) -> usize
    ensures value { result ≡ length (concat words.now ++ bytes.now) }
    ensures out_after { out.new ≡ onto (concat words.now ++ bytes.now) out.old }
{
    let front = words.as_flattened();
    put_front(out, front);
    put_at(out, front.len(), bytes);
    front.len() + bytes.len()
}
