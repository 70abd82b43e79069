//! Decimal numbers with one spelling each.
ghost use Rattle.std.specs.Prelude.{◌≡◌, ◌≤◌, IfSome};
ghost use Rattle.fields.specs.Decimal.{continued, number};

// The digits of a text as a number, none where one is no digit or the number passes `most`.
// Not `parse`, which takes a sign and leading zeros.
fn digits(text: &[u8], most: u32) -> Option<u32>
    ensures value { result ≡ continued most 0 text.now }
    ensures within { IfSome result (λ n. n ≤ most) }
{
    let mut n: u32 = 0;
    for c in text {
        let b'0'..=b'9' = c else {
            return None;
        };
        let next = 10 * n as u64 + (c - b'0') as u64;
        if next > most as u64 {
            return None;
        }
        n = next as u32;
    }
    Some(n)
}

/// A number from 0 to `most`, written without sign and without leading zeros; none where the text is no such number.
pub fn decimal(text: &[u8], most: u32) -> Option<u32>
    ensures value { result ≡ number most text.now }
    ensures within { IfSome result (λ n. n ≤ most) }
{
    match text {
        [] => None,
        [b'0', _, ..] => None,
        _ => digits(text, most),
    }
}
