// Long rows on the heap.
ghost use Rattle.std.specs.Prelude.{◌≡◌, IfOk};
ghost use Rattle.sizes.specs.Rows.{row, value, reading, word};

use counters::SupplyReading;
use std::alloc::{AllocError, Global};

// So many values, each three times.
pub fn values(heap: Global, n: u32) -> Result<Vec<u32>, AllocError>
    ensures { IfOk result (λ v. v.items ≡ row value n) }
{
    (0..n).map(|i| i / 3).collect(heap)
}

// So many supply readings, of all levels up to 65,535.
pub fn readings(heap: Global, n: u32) -> Result<Vec<SupplyReading>, AllocError>
    ensures { IfOk result (λ v. v.items ≡ row reading n) }
{
    (0..n).map(reading).collect(heap)
}

// So many words of a strip.
pub fn words(heap: Global, n: u32) -> Result<Vec<u64>, AllocError>
    ensures { IfOk result (λ v. v.items ≡ row word n) }
{
    (0..n).map(word).collect(heap)
}

// The supply reading at a place.
fn reading(i: u32) -> SupplyReading
    ensures { result ≡ reading i }
{
    SupplyReading {
        millivolts: (i as u64 * 7_919 % 65_536) as u16,
    }
}

// The word of a strip at a place.
fn word(i: u32) -> u64
    ensures { result ≡ word i }
{
    (i as u64 + 1).wrapping_mul(11_400_714_819_323_198_485)
}
