// The words of a line, and its blanks.

/// Whether a byte goes into a name.
pub fn is_of_word(byte: u8) -> bool {
    byte.is_ascii_alphanumeric() || byte == b'_'
}

// Whether a byte is a blank.
fn is_blank(byte: u8) -> bool {
    byte == b' ' || byte == b'\t' || byte == b'\r'
}

/// The bytes up to the last one that is no blank.
pub fn without_blanks(bytes: &[u8]) -> &[u8] {
    for i in (0..bytes.len()).rev() {
        if !is_blank(bytes[i]) {
            return &bytes[..i + 1];
        }
    }
    &[]
}

/// The bytes from the first one that is no blank.
pub fn without_front_blanks(bytes: &[u8]) -> &[u8] {
    for i in 0..bytes.len() {
        if !is_blank(bytes[i]) {
            return &bytes[i..];
        }
    }
    &[]
}

/// Whether bytes are blanks and ends of lines alone.
pub fn is_bare(bytes: &[u8]) -> bool {
    for byte in bytes {
        if !is_blank(*byte) && *byte != b'\n' {
            return false;
        }
    }
    true
}

/// The word at the end of bytes.
pub fn last_word(bytes: &[u8]) -> &[u8] {
    for i in (0..bytes.len()).rev() {
        if !is_of_word(bytes[i]) {
            return &bytes[i + 1..];
        }
    }
    bytes
}

/// The bytes before the word at the end.
pub fn before_last_word(bytes: &[u8]) -> &[u8] {
    for i in (0..bytes.len()).rev() {
        if !is_of_word(bytes[i]) {
            return &bytes[..i + 1];
        }
    }
    &[]
}

/// The word at the beginning of bytes.
pub fn first_word(bytes: &[u8]) -> &[u8] {
    for i in 0..bytes.len() {
        if !is_of_word(bytes[i]) {
            return &bytes[..i];
        }
    }
    bytes
}
