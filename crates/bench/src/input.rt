// The numbers of a line. A number is decimal, or hexadecimal in capital letters with `h` after it. Digits with another letter after them are
// no number.
ghost use Rattle.std.specs.Prelude.{◌<◌, ◌≤◌, IfSome};

// The last eight numbers of a line, the last one first. No case has more.
pub type Numbers = [u64; 8];

// No `to_digit`, which takes small letters too.
fn digit(b: u8) -> Option<u64>
    ensures { IfSome result (λ d. d < 16) }
{
    match b {
        b'0'..=b'9' => Some(u64::from(b - b'0')),
        b'A'..=b'F' => Some(u64::from(b - b'A') + 10),
        _ => None,
    }
}

// A number that is too long wraps in either base. `parse` and `from_str_radix` would refuse it.
fn value(digits: &[u8], base: u64) -> u64
    requires { base ≤ 16 }
{
    digits.iter().fold(0, |n, b| {
        n % 0x1000000000000000 * base + digit(*b).unwrap_or(0)
    })
}

// The number that a piece of the line is, where the byte after its digits stands last in the piece.
fn number(piece: &[u8]) -> Option<u64> {
    let (digits, after) = match piece {
        [digits @ .., after] if digit(*after).is_none() => (digits, *after),
        _ => (piece, b' '),
    };
    if digits.is_empty() {
        return None;
    }
    if after == b'h' {
        return Some(value(digits, 16));
    }
    let decimal = after < b'A' && digits.iter().all(|b| b.is_ascii_digit());
    decimal.then(|| value(digits, 10))
}

pub fn numbers(line: &[u8]) -> Numbers {
    let mut last = [0; 8];
    for piece in line.split_inclusive(|b| digit(*b).is_none()) {
        if let Some(n) = number(piece) {
            last.rotate_right(1);
            last[0] = n;
        }
    }
    last
}
