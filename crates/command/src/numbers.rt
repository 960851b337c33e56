// Numbers that an argument or a line names.
ghost use Rattle.std.specs.Prelude.{◌≡◌};
ghost use Rattle.command.specs.Numbers.{digit_in, number_in};

// The most digits whose every number has 64 bits.
const MOST_DIGITS: usize = 19;

// The number of 1 to 19 decimal digits, and nothing else.
pub fn number(text: &[u8]) -> Option<u64>
    ensures { result ≡ number_in text.now }
{
    if text.is_empty() || MOST_DIGITS < text.len() {
        return None;
    }
    let mut n = 0;
    for &b in text {
        n = n * 10 + digit(b)?;
    }
    Some(n)
}

// What a digit counts.
fn digit(b: u8) -> Option<u64>
    ensures { result ≡ digit_in b }
{
    match b {
        b'0'..=b'9' => Some(u64::from(b - b'0')),
        _ => None,
    }
}
