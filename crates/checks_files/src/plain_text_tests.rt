use plain_text::{cut_at, number, number_within};

// Some bytes, the byte to cut at, and what stands before and after it.
const CUTS: [(&[u8], u8, Option<(&[u8], &[u8])>); 7] = [
    (b"ab.cd", b'.', Some((b"ab", b"cd"))),
    (b".cd", b'.', Some((b"", b"cd"))),
    (b"ab.", b'.', Some((b"ab", b""))),
    (b".", b'.', Some((b"", b""))),
    (b"a.b.c", b'.', Some((b"a", b"b.c"))),
    (b"abcd", b'.', None),
    (b"", b'.', None),
];

#[test]
fn cuts_at_the_first_such_byte(rt: HostRuntime) {
    for (bytes, byte, expected) in &CUTS {
        assert!(rt; cut_at(bytes, *byte) == *expected);
    }
}

// A word, the limits, and the number that it says.
const NUMBERS: [(&[u8], u64, u64, Option<u64>); 11] = [
    (b"0", 0, 9, Some(0)),
    (b"0", 1, 9, None),
    (b"9", 1, 9, Some(9)),
    (b"10", 1, 9, None),
    (b"07", 0, 9, None),
    (b"+7", 0, 9, None),
    (b"-0", 0, 9, None),
    (b"", 0, 9, None),
    (b"1x", 0, 99, None),
    (b"18446744073709551615", 0, u64::MAX, Some(u64::MAX)),
    (b"18446744073709551616", 0, u64::MAX, None),
];

#[test]
fn reads_numbers_within_their_limits(rt: HostRuntime) {
    for (word, low, high, expected) in &NUMBERS {
        assert!(rt; number(word, *low, *high) == *expected);
    }
}

// A word, the limit, and the number that it says, leading zeros and all.
const WITHIN: [(&[u8], u64, Option<u64>); 8] = [
    (b"0", 0, Some(0)),
    (b"007", 7, Some(7)),
    (b"007", 6, None),
    (b"", 9, None),
    (b"+7", 9, None),
    (b"7.", 9, None),
    (b"0018446744073709551615", u64::MAX, Some(u64::MAX)),
    (b"18446744073709551616", u64::MAX, None),
];

#[test]
fn reads_numbers_with_leading_zeros(rt: HostRuntime) {
    for (word, limit, expected) in &WITHIN {
        assert!(rt; number_within(word, *limit) == *expected);
    }
}
