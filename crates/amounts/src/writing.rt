ghost use Rattle.std.specs.Prelude.{◌≡◌, ◌<◌, ◌*◌, ◌%◌, ◌++◌, OnOk, IfOk, string_bytes};
ghost use Rattle.amounts.specs.Text.{digit, decimals, after_point, amount_text};

use crate::Scale;
use std::alloc::{AllocError, Global};

/// How many millionths a whole has.
const MILLION: u64 = 1_000_000;

// Puts the digit of this unit after the text, where anything is left, and answers what is left then.
fn put_digit(text: &mut String, rest: u64, unit: u64) -> Result<u64, AllocError>
    requires { 0 < unit }
    ensures digit { OnOk result (string_bytes text.new ≡ string_bytes text.old ++ digit unit rest) }
    ensures left { IfOk result (λ left. left ≡ rest % unit) }
{
    if rest > 0 {
        write!(text, "{}", rest / unit)?;
    }
    Ok(rest % unit)
}

// Puts the decimals of so many millionths after the text.
fn put_decimals(text: &mut String, millionths: u64) -> Result<(), AllocError>
    ensures { OnOk result (string_bytes text.new ≡ string_bytes text.old ++ decimals 6 millionths) }
{
    let rest = put_digit(text, millionths, 100_000)?;
    let rest = put_digit(text, rest, 10_000)?;
    let rest = put_digit(text, rest, 1_000)?;
    let rest = put_digit(text, rest, 100)?;
    let rest = put_digit(text, rest, 10)?;
    let _nothing = put_digit(text, rest, 1)?;
    Ok(())
}

// Puts a point and the decimals of so many millionths after the text, where there are any.
fn put_after_point(text: &mut String, millionths: u64) -> Result<(), AllocError>
    ensures { OnOk result (string_bytes text.new ≡ string_bytes text.old ++ after_point millionths) }
{
    if millionths == 0 {
        return Ok(());
    }
    text.push_str(".")?;
    put_decimals(text, millionths)?;
    Ok(())
}

/// Puts a number of a file's unit after the text: in wholes, with at most six decimals and no zeros at their end.
pub fn put_amount(text: &mut String, number: u64, scale: Scale) -> Result<(), AllocError>
    ensures { OnOk result (string_bytes text.new ≡ string_bytes text.old ++ amount_text number scale) }
{
    match scale {
        Scale::Whole => write!(text, "{number}"),
        Scale::Millionths => {
            write!(text, "{}", number / MILLION)?;
            put_after_point(text, number % MILLION)
        }
    }
}

/// How a number of a file's unit is written, alone.
pub fn amount_text(alloc: Global, number: u64, scale: Scale) -> Result<String, AllocError>
    ensures { IfOk result (λ text. string_bytes text ≡ amount_text number scale) }
{
    let mut text = String::new(alloc);
    put_amount(&mut text, number, scale)?;
    Ok(text)
}
