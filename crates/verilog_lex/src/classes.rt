ghost use Rattle.std.specs.Prelude.{◌≡◌, ◌≤◌, length};
ghost use Rattle.std.specs.List.{prefix_len};
ghost use Rattle.verilog_lex.specs.Fronts.{begins_name};
ghost use Rattle.verilog_lex.specs.Classes.{passes};

/// Bytes that may stand in a row.
#[derive(Clone, Copy)]
pub enum Class {
    White,
    OfName,
    Digit,
    Graphic,
    OfLine,
    OfString,
    Ascii,
}

#[inline(always)]
pub fn begins_name(byte: u8) -> bool
    ensures { result ≡ begins_name byte }
{
    byte.is_ascii_alphabetic() || byte == b'_'
}

#[inline(always)]
pub fn passes(class: Class, byte: u8) -> bool
    ensures { result ≡ passes class byte }
{
    match class {
        Class::White => matches!(byte, b' ' | b'\t' | b'\n' | b'\r' | 12),
        Class::OfName => byte.is_ascii_alphanumeric() || byte == b'_' || byte == b'$',
        Class::Digit => byte.is_ascii_digit(),
        Class::Graphic => byte.is_ascii_graphic(),
        Class::OfLine => byte != b'\n',
        Class::OfString => byte != b'"' && byte != b'\n',
        Class::Ascii => byte.is_ascii(),
    }
}

/// How many bytes at the front are of the class.
#[inline(always)]
pub fn run_length(class: Class, bytes: &[u8]) -> usize
    ensures run { result ≡ prefix_len (passes class) bytes.now }
    ensures within { result ≤ length bytes.now }
{
    for (i, byte) in bytes.iter().enumerate() {
        if !passes(class, *byte) {
            return i;
        }
    }
    bytes.len()
}
