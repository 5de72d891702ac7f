use super::*;

// Any row at any offset, as raw's own are read.
fn read_any<R: Stored>(s: &[u8], at: usize) -> R {
    R::read(s, at)
}

#[test]
fn a_pair_is_read_and_written_at_any_offset(rt: HostRuntime) {
    let bytes = [9, 1, 0, 0, 0, 2, 1, 0, 0];
    let pair = Pair {
        first: 1,
        second: 258,
    };
    assert_eq!(rt; Pair::load(&bytes, 1), pair);
    for (at, first, second) in [
        (1, 1, 258),
        (5, 258, 0),
        (8, 0, 0),
        (9, 0, 0),
        (usize::MAX, 0, 0),
    ] {
        let read: Pair = read_any(&bytes, at);
        assert_eq!(rt; read, Pair { first, second }, "at {at}");
    }
    let mut out = [7u8; 6];
    Loaded::write(pair, &mut out, 1);
    assert_eq!(rt; out, [7, 1, 0, 0, 0, 2]);
}
