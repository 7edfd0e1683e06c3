ghost use Rattle.std.specs.Prelude.{◌≡◌, ◌<◌, ◌≤◌, length, take};
ghost use Rattle.std.specs.Char.{digit_char};
ghost use Rattle.std.specs.Int.Digits.{digits_of};
ghost use Rattle.gp_body.specs.Chunks.{chunk_head};

/// Writes the size line of a chunk with so many bytes, and answers how many bytes that is: the size in lower-case
/// hexadecimal without leading zeros, and CRLF (RFC 9112, section 7.1). It takes no memory.
pub fn chunk_head(length: u64, into: &mut [u8; 18]) -> usize
    requires { 0 < length }
    ensures text { take result into.new ≡ chunk_head length }
    ensures within { result ≤ 18 }
{
    let count = digit_count(length);
    let mut left = length;
    let mut place = count;
    while place > 0 {
        place -= 1;
        into[place] = hex_digit((left % 16) as u8);
        left /= 16;
    }
    into[count] = b'\r';
    into[count + 1] = b'\n';
    count + 2
}

/// How many hexadecimal digits a number has. Zero has none.
fn digit_count(number: u64) -> usize
    ensures value { result ≡ length (digits_of 16 number) }
    ensures few { result ≤ 16 }
{
    let mut count = 0;
    let mut left = number;
    while left > 0 {
        left /= 16;
        count += 1;
    }
    count
}

fn hex_digit(digit: u8) -> u8
    requires { digit < 16 }
    ensures { result ≡ digit_char digit }
{
    if digit < 10 {
        b'0' + digit
    } else {
        b'a' + (digit - 10)
    }
}
