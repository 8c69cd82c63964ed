// Numbers of at most sixteen digits, written into a row.
ghost use Rattle.std.specs.Prelude.{◌≡◌, ◌^◌, ◌<◌, ◌≤◌, length, decimal};
ghost use Rattle.words.specs.Writing.{begun};

// The powers of ten from 10^0 to 10^15: a constant table, as the project fixes it.
const POWERS: [u64; 16] = [
    1,
    10,
    100,
    1_000,
    10_000,
    100_000,
    1_000_000,
    10_000_000,
    100_000_000,
    1_000_000_000,
    10_000_000_000,
    100_000_000_000,
    1_000_000_000_000,
    10_000_000_000_000,
    100_000_000_000_000,
    1_000_000_000_000_000,
];

// How many digits a number has.
fn digit_count(n: u64) -> usize
    requires { n < 10 ^ 16 }
    ensures count { result ≡ length (decimal n) }
    ensures few { result ≤ 16 }
{
    let larger = POWERS.iter().position(|power| n < *power);
    larger.unwrap_or(POWERS.len()).max(1)
}

// Writes a number's digits into the first places of a row, and gives how many they are. By place, since nothing is
// known of a row's elements where its `iter_mut` goes through a `zip`.
pub(crate) fn write_digits(n: u64, out: &mut [u8]) -> usize
    requires short { n < 10 ^ 16 }
    requires fits { length (decimal n) ≤ length out.old }
    ensures count { result ≡ length (decimal n) }
    ensures row { out.new ≡ begun (decimal n) out.old }
{
    let count = digit_count(n);
    for (i, power) in POWERS[..count].iter().rev().enumerate() {
        out[i] = b'0' + (n / power % 10) as u8;
    }
    count
}
