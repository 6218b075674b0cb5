use amounts::{NoAmount, Scale, amount_said, amount_text};
use std::alloc::{AllocError, Global};
use std::test::Fail;

// A number, and its texts as so many wholes and as so many millionths.
const TEXTS: &[(u64, &str, &str)] = &[
    (0, "0", "0"),
    (1, "1", "0.000001"),
    (10, "10", "0.00001"),
    (50_000, "50000", "0.05"),
    (100_000, "100000", "0.1"),
    (500_000, "500000", "0.5"),
    (999_999, "999999", "0.999999"),
    (1_000_000, "1000000", "1"),
    (1_000_001, "1000001", "1.000001"),
    (5_500_000, "5500000", "5.5"),
    (u64::MAX, "18446744073709551615", "18446744073709.551615"),
];

// Whether a number is written so, and read back as so many millionths.
fn is_written(
    alloc: Global,
    number: u64,
    scale: Scale,
    wanted: &str,
    millionths: u128,
) -> Result<bool, AllocError> {
    let text = amount_text(alloc, number, scale)?;
    let said = amount_said(text.as_bytes(), u64::MAX);
    Ok(text.as_str() == wanted && said == Ok(millionths))
}

#[test]
fn writes_numbers_that_are_read_back(rt: HostRuntime) -> Result<(), Fail> {
    for row in TEXTS {
        let (number, whole, millionths) = *row;
        let many = u128::from(number);
        assert!(rt; is_written(rt.alloc(), number, Scale::Whole, whole, many * 1_000_000)?);
        assert!(rt; is_written(rt.alloc(), number, Scale::Millionths, millionths, many)?);
    }
    Ok(())
}

// A word, the most that its whole part may be, and what it says.
const WORDS: &[(&[u8], u64, Result<u128, NoAmount>)] = &[
    (b"7", 7, Ok(7_000_000)),
    (b"007.50", 7, Ok(7_500_000)),
    (b"7.", 7, Ok(7_000_000)),
    (b"0.5000000", 0, Ok(500_000)),
    (b"0.0000000000", 0, Ok(0)),
    (b"0.999999", 0, Ok(999_999)),
    (
        b"18446744073709551615.999999",
        u64::MAX,
        Ok(18_446_744_073_709_551_615_999_999),
    ),
    (b"", 9, Err(NoAmount::NotDigits)),
    (b".", 9, Err(NoAmount::NotDigits)),
    (b".5", 9, Err(NoAmount::NotDigits)),
    (b"5..0", 9, Err(NoAmount::NotDigits)),
    (b"5.0.0", 9, Err(NoAmount::NotDigits)),
    (b"0.5x", 9, Err(NoAmount::NotDigits)),
    (b"-0.5", 9, Err(NoAmount::NotDigits)),
    (b"+5", 9, Err(NoAmount::NotDigits)),
    (b"1e3", 9, Err(NoAmount::NotDigits)),
    (b"1,5", 9, Err(NoAmount::NotDigits)),
    (b"0.0000005", 9, Err(NoAmount::TooFine)),
    (b"8.00000010", 7, Err(NoAmount::TooFine)),
    (b"8", 7, Err(NoAmount::TooLarge)),
    (b"8.000000", 7, Err(NoAmount::TooLarge)),
    (b"18446744073709551616", u64::MAX, Err(NoAmount::TooLarge)),
];

#[test]
fn reads_words_as_what_they_say(rt: HostRuntime) {
    for row in WORDS {
        let (word, most, wanted) = *row;
        assert!(rt; amount_said(word, most) == wanted);
    }
}

// A word with 10,000 digits after its point, of which those from the seventh on are 0, but for the last.
fn long_word(alloc: Global, last: u8) -> Result<Vec<u8>, AllocError> {
    let mut word = Vec::from_slice(alloc, b"3.141592")?;
    for _ in 0..9_993 {
        word.push(b'0')?;
    }
    word.push(last)?;
    Ok(word)
}

// What such a word says.
fn long_said(alloc: Global, last: u8) -> Result<Result<u128, NoAmount>, AllocError> {
    let word = long_word(alloc, last)?;
    Ok(amount_said(&word, 3))
}

#[test]
fn reads_ten_thousand_decimals(rt: HostRuntime) -> Result<(), Fail> {
    assert!(rt; long_said(rt.alloc(), b'0')? == Ok(3_141_592));
    assert!(rt; long_said(rt.alloc(), b'1')? == Err(NoAmount::TooFine));
    Ok(())
}
