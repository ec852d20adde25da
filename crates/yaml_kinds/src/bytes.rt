// The classes of bytes.
ghost use Rattle.std.specs.Prelude.{◌≡◌};
ghost use Rattle.std.specs.List.{list_all};
ghost use Rattle.yaml_spec.specs.Bytes.{is_digit, is_hex_digit, is_octal_digit};
ghost use Rattle.yaml_spec.specs.Scalars.{some_of};

/// Whether the byte is an ASCII digit.
pub fn is_digit(byte: u8) -> bool
    ensures { result ≡ is_digit byte }
{
    byte >= b'0' && byte <= b'9'
}

fn is_octal_digit(byte: u8) -> bool
    ensures { result ≡ is_octal_digit byte }
{
    byte >= b'0' && byte <= b'7'
}

fn is_hex_digit(byte: u8) -> bool
    ensures { result ≡ is_hex_digit byte }
{
    is_digit(byte) || (byte >= b'A' && byte <= b'F') || (byte >= b'a' && byte <= b'f')
}

/// Whether each byte is an ASCII digit. It is so of no bytes.
pub fn all_digits(bytes: &[u8]) -> bool
    ensures { result ≡ list_all is_digit bytes.now }
{
    bytes.iter().all(|byte| is_digit(*byte))
}

/// Whether each byte is an octal digit. It is so of no bytes.
pub fn all_octal_digits(bytes: &[u8]) -> bool
    ensures { result ≡ list_all is_octal_digit bytes.now }
{
    bytes.iter().all(|byte| is_octal_digit(*byte))
}

fn all_hex_digits(bytes: &[u8]) -> bool
    ensures { result ≡ list_all is_hex_digit bytes.now }
{
    bytes.iter().all(|byte| is_hex_digit(*byte))
}

/// Whether the text is one or more decimal digits.
pub fn some_digits(text: &[u8]) -> bool
    ensures { result ≡ some_of is_digit text.now }
{
    !text.is_empty() && all_digits(text)
}

/// Whether the text is one or more octal digits.
pub fn some_octal_digits(text: &[u8]) -> bool
    ensures { result ≡ some_of is_octal_digit text.now }
{
    !text.is_empty() && all_octal_digits(text)
}

/// Whether the text is one or more hexadecimal digits, in capitals or not.
pub fn some_hex_digits(text: &[u8]) -> bool
    ensures { result ≡ some_of is_hex_digit text.now }
{
    !text.is_empty() && all_hex_digits(text)
}
