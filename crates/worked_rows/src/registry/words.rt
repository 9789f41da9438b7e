//! Numbers in rows, and answers in letters: a number of one digit is that digit, and what there isn't is a dash.

use std::test::Fail;

pub const NONE: u8 = b'-';

/// The last digit of a number.
pub fn digit(number: u64) -> u8 {
    b'0' + (number % 10) as u8
}

/// Whether something holds.
pub fn flag(holds: bool) -> u8 {
    if holds { b'y' } else { b'n' }
}

pub fn number(word: &str) -> Result<u64, Fail> {
    match word.parse::<u64>() {
        Ok(number) => Ok(number),
        Err(_) => Err(Fail::from("a number")),
    }
}

pub fn small(word: &str) -> Result<u16, Fail> {
    match word.parse::<u16>() {
        Ok(number) => Ok(number),
        Err(_) => Err(Fail::from("a small number")),
    }
}

pub fn byte(number: u16) -> Result<u8, Fail> {
    match u8::try_from(number) {
        Ok(byte) => Ok(byte),
        Err(_) => Err(Fail::from("a byte")),
    }
}

/// The first of several small numbers, and the text of the others.
pub fn first(text: &str) -> Result<(u16, &str), Fail> {
    let (word, rest) = text.split_once(' ').ok_or("one more number")?;
    Ok((small(word)?, rest))
}

pub fn two(text: &str) -> Result<(u16, u16), Fail> {
    let (one, rest) = first(text)?;
    Ok((one, small(rest)?))
}

pub fn three(text: &str) -> Result<(u16, u16, u16), Fail> {
    let (one, rest) = first(text)?;
    let (two, three) = two(rest)?;
    Ok((one, two, three))
}

pub fn four(text: &str) -> Result<(u16, u16, u16, u16), Fail> {
    let (one, rest) = first(text)?;
    let (two, three, four) = three(rest)?;
    Ok((one, two, three, four))
}
