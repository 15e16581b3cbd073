// What a text says of itself, by values and not by its own clauses: how long it is, and its bytes, up to a text that fills its room.
use super::{Text, put};

// How many bytes still fit, as a caller who is lent a text reckons it: its length is none over its room.
fn room_left<const N: usize>(text: &Text<N>) -> usize {
    N - text.len()
}

#[test]
fn fills_up(rt: HostRuntime) {
    let mut text = Text::<4>::new();
    assert_eq!(rt; text.len(), 0);
    assert_eq!(rt; room_left(&text), 4);
    put(&mut text, b"abc");
    assert_eq!(rt; text.len(), 3);
    assert_eq!(rt; text.as_bytes(), b"abc".as_slice());
    put(&mut text, b"de");
    assert_eq!(rt; text.len(), 4);
    assert_eq!(rt; room_left(&text), 0);
    assert_eq!(rt; text.as_bytes(), b"abcd".as_slice());
}
