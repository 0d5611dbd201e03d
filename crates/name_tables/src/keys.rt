ghost use Rattle.std.specs.Prelude.{◌≡◌, ◌+◌, ◌*◌, ◌%◌};
ghost use Rattle.bud_design.specs.Names.{plain};
ghost use Rattle.name_tables.specs.Keys.{escapes, key_step, key_from};

/// Whether the byte is a backslash that makes the next byte stand for itself.
pub fn is_escape(escaped: bool, byte: u8) -> bool
    ensures { result ≡ escapes escaped byte }
{
    !escaped && byte == b'\\'
}

/// The key of a text with one more byte.
fn key_step(key: u32, byte: u8) -> u32
    ensures { result ≡ key_step key byte }
{
    ((u64::from(key) * 16777619 + u64::from(byte)) % 4294967291) as u32
}

/// The key of a text behind one that has this key; that of no text is 0.
pub fn key_behind(key: u32, text: &[u8]) -> u32
    ensures { result ≡ key_from key text.now }
{
    let mut key = key;
    for byte in text {
        key = key_step(key, *byte);
    }
    key
}

/// The key of a plain name, by the printed one, behind a text that has this key.
pub fn plain_key_behind(key: u32, name: &[u8]) -> u32
    ensures { result ≡ key_from key (plain name.now) }
{
    let mut key = key;
    let mut escaped = false;
    for byte in name {
        escaped = is_escape(escaped, *byte);
        if !escaped {
            key = key_step(key, *byte);
        }
    }
    key
}
