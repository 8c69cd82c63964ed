// Values put one after the other, and lent as a slice.
ghost use Rattle.std.specs.Prelude.{◌≡◌, ◌+◌, ◌<◌, true, false, [], ◌∷◌, ◌++◌, length, take, nat_lt};
ghost use Rattle.jobs.specs.Values.{listed};

use super::Values;
use std::convert::AsSlice;

impl Values {
    // No value yet.
    pub fn none() -> Values
        ensures { listed result ≡ [] }
    {
        Values {
            row: [0; 64],
            count: 0,
        }
    }

    // Puts a value after the others; says false, and changes nothing, where there are 64.
    pub fn put(&mut self, value: u32) -> bool
        ensures room { result ≡ nat_lt (length (listed self.old)) 64 }
        ensures put { result ≡ true → listed self.new ≡ listed self.old ++ value ∷ [] }
        ensures full { result ≡ false → self.new ≡ self.old }
    {
        if self.count >= 64 {
            return false;
        }
        // counted before the row is written, so that the count need not be read again after it
        let count = self.count + 1;
        put_next(&mut self.row, self.count, value);
        self.count = count;
        true
    }

    // The values, in their order.
    pub fn as_slice(&self) -> &[u32]
        ensures { result.now ≡ listed self.now }
    {
        &self.row[..self.count]
    }
}

impl AsSlice<u32> for Values {
    ghost items = { listed };

    fn as_slice(&self) -> &[u32] {
        self.as_slice()
    }
}

// Puts a value after the first `count` of the row.
fn put_next(row: &mut [u32], count: usize, value: u32)
    requires { count < length row.old }
    ensures { take (count + 1) row.new ≡ take count row.old ++ value ∷ [] }
{
    row[count] = value;
}
