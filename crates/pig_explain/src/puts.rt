//! Words, numbers, texts in quotes and delimiters, each put behind what a buffer holds.
ghost use Rattle.std.specs.Prelude.{◌≡◌, ◌<◌, ◌++◌, codes, decimal, OnOk};
ghost use Rattle.std.specs.Fmt.{signed_decimal};
ghost use Rattle.std.specs.List.{flat_map};
ghost use Rattle.pig_explain.specs.Quoting.{escape, field_text, hex, hex_digit, local_text, quoted};
ghost use Rattle.pig_value.specs.Texts.{bool_text};

use itoa::Buffer;
use pig_value::{Delim, Text};
use std::alloc::AllocError;

pub fn put(bytes: &[u8], out: &mut Vec<u8>) -> Result<(), AllocError>
    ensures { OnOk result (out.new.items ≡ out.old.items ++ bytes.now) }
{
    out.extend_from_slice(bytes)?;
    Ok(())
}

pub fn put_number(number: u64, out: &mut Vec<u8>) -> Result<(), AllocError>
    ensures { OnOk result (out.new.items ≡ out.old.items ++ decimal number) }
{
    put(Buffer::new().format(number).as_bytes(), out)
}

pub fn put_int(number: i32, out: &mut Vec<u8>) -> Result<(), AllocError>
    ensures { OnOk result (out.new.items ≡ out.old.items ++ signed_decimal number) }
{
    put(Buffer::new().format(number).as_bytes(), out)
}

pub fn put_long(number: i64, out: &mut Vec<u8>) -> Result<(), AllocError>
    ensures { OnOk result (out.new.items
        ≡ out.old.items ++ signed_decimal number ++ codes "L") }
{
    put(Buffer::new().format(number).as_bytes(), out)?;
    put(b"L", out)
}

pub fn put_bool(truth: bool, out: &mut Vec<u8>) -> Result<(), AllocError>
    ensures { OnOk result (out.new.items ≡ out.old.items ++ bool_text truth) }
{
    if truth {
        put(b"true", out)
    } else {
        put(b"false", out)
    }
}

// The field of a row at a position.
pub fn put_field(position: u32, out: &mut Vec<u8>) -> Result<(), AllocError>
    ensures { OnOk result (out.new.items ≡ out.old.items ++ field_text position) }
{
    put(b"$", out)?;
    put_number(u64::from(position), out)
}

// The value of a nested step, by its number.
pub fn put_local(number: u64, out: &mut Vec<u8>) -> Result<(), AllocError>
    ensures { OnOk result (out.new.items ≡ out.old.items ++ local_text number) }
{
    put(b"@", out)?;
    put_number(number, out)
}

// A text as a token, with its escapes.
pub fn put_quoted(text: &Text, out: &mut Vec<u8>) -> Result<(), AllocError>
    ensures { OnOk result (out.new.items ≡ out.old.items ++ quoted text.now) }
{
    put(b"'", out)?;
    put_escaped(text.as_bytes(), out)?;
    put(b"'", out)
}

fn put_escaped(bytes: &[u8], out: &mut Vec<u8>) -> Result<(), AllocError>
    ensures { OnOk result (out.new.items ≡ out.old.items ++ flat_map escape bytes.now) }
{
    for byte in bytes {
        put_byte(*byte, out)?;
    }
    Ok(())
}

// A byte of a text, escaped where it has to be.
fn put_byte(byte: u8, out: &mut Vec<u8>) -> Result<(), AllocError>
    ensures { OnOk result (out.new.items ≡ out.old.items ++ escape byte) }
{
    if byte == b'\t' {
        return put(b"\\t", out);
    }
    if byte == b'\'' || byte == b'\\' {
        return put(&[b'\\', byte], out);
    }
    put(&[byte], out)
}

// A delimiter as two hexadecimal digits.
pub fn put_hex(delim: Delim, out: &mut Vec<u8>) -> Result<(), AllocError>
    ensures { OnOk result (out.new.items ≡ out.old.items ++ hex delim) }
{
    let byte = delim.byte();
    put(&[hex_digit(byte / 16), hex_digit(byte % 16)], out)
}

fn hex_digit(number: u8) -> u8
    requires { number < 16 }
    ensures { result ≡ hex_digit number }
{
    if number < 10 {
        48 + number
    } else {
        87 + number
    }
}
