// Number words: what their digits say.
ghost use Rattle.std.specs.Prelude.{◌≡◌, ◌≤◌, length, if◌then◌else◌, Some, None};
ghost use Rattle.std.specs.Str.{all_ascii_digits};
ghost use Rattle.words.specs.Numbers.{digits_value, number_of, NumbersAreDecimal, ReadsBack};

// The number that at most ten digits write; none where a byte is no digit. By hand, since `parse` reads a text.
fn digits_value(word: &[u8]) -> Option<u64>
    requires { length word.now ≤ 10 }
    ensures { result ≡ (if all_ascii_digits word.now then Some (digits_value word.now) else None) }
{
    let mut value = 0;
    for b in word {
        if !b.is_ascii_digit() {
            return None;
        }
        value = 10 * value + u64::from(*b - b'0');
    }
    Some(value)
}

// The number that a word says.
pub fn number_of(word: &[u8]) -> Option<u32>
    ensures { result ≡ number_of word.now }
{
    match word {
        [] | [b'0', _, ..] => None,
        _ if word.len() > 10 => None,
        _ => u32::try_from(digits_value(word)?).ok(),
    }
}

// A word says a number exactly when it is that number in decimal digits, and decimal digits read back.
pub fn numbers_read_back()
    ensures decimal { NumbersAreDecimal }
    ensures back { ReadsBack }
{}
