ghost use Rattle.std.specs.Prelude.{◌≡◌, length};
ghost use Rattle.std.specs.Str.{bytes_eq};
ghost use Rattle.bud_design.specs.DesignRules.{IsPrintedForm};
ghost use Rattle.bud_design.specs.Names.{plain, bit_name};
ghost use Rattle.flat_design.specs.Fronts.{formed, brackets, IsBefore, IsShort};

use itoa::Buffer;
use name_tables::is_escape;

/// A form of a name: as printed, or without the backslashes that printing puts.
#[derive(Clone, Copy, Debug)]
pub enum Form {
    Printed,
    Plain,
}

/// The text before this end, if it ends so.
pub fn before_end<'a>(text: &'a [u8], end: &[u8]) -> Option<&'a [u8]>
    ensures { IsBefore text.now end.now result }
{
    text.strip_suffix(end)
}

/// How many bytes the plain name has.
fn plain_length(name: &[u8]) -> usize
    ensures { result ≡ length (plain name.now) }
{
    let mut count = 0;
    let mut escaped = false;
    for byte in name {
        escaped = is_escape(escaped, *byte);
        if !escaped {
            count += 1;
        }
    }
    count
}

/// Whether this is the plain name.
fn is_plain(name: &[u8], text: &[u8]) -> bool
    ensures { result ≡ bytes_eq (plain name.now) text.now }
{
    let mut escaped = false;
    let mut rest = text;
    for byte in name {
        escaped = is_escape(escaped, *byte);
        if !escaped {
            match rest {
                [first, others @ ..] if *first == *byte => rest = others,
                _ => return false,
            }
        }
    }
    rest.is_empty()
}

/// The text before the plain name, if it ends so.
fn before_plain<'a>(text: &'a [u8], name: &[u8]) -> Option<&'a [u8]>
    ensures { IsBefore text.now (plain name.now) result }
{
    let length = plain_length(name);
    if text.len() < length {
        return None;
    }
    let (before, end) = text.split_at(text.len() - length);
    if is_plain(name, end) {
        Some(before)
    } else {
        None
    }
}

/// The text before this name in its form, if it ends so.
pub fn before_name<'a>(text: &'a [u8], name: &[u8], form: Form) -> Option<&'a [u8]>
    ensures { IsBefore text.now (formed form name.now) result }
{
    match form {
        Form::Printed => before_end(text, name),
        Form::Plain => before_plain(text, name),
    }
}

/// The text before a number in brackets, if it ends so.
fn before_brackets(text: &[u8], bit: Option<u32>) -> Option<&[u8]>
    ensures before { IsBefore text.now (brackets bit) result }
    ensures short { IsShort bit }
{
    let Some(number) = bit else {
        return Some(text);
    };
    let Some(text) = before_end(text, b"]") else {
        return None;
    };
    let mut buffer = Buffer::new();
    let Some(text) = before_end(text, buffer.format(number).as_bytes()) else {
        return None;
    };
    before_end(text, b"[")
}

/// The text before the name of a port's bit, if it ends so.
pub fn before_last<'a>(
    text: &'a [u8],
    port: &[u8],
    bit: Option<u32>,
    form: Form,
) -> Option<&'a [u8]>
    requires { IsPrintedForm port.now }
    ensures { IsBefore text.now (formed form (bit_name port.now bit)) result }
{
    let Some(text) = before_brackets(text, bit) else {
        return None;
    };
    before_name(text, port, form)
}
