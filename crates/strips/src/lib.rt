// Door strips: a kind of logger that counts the ones among the first bits of a lent row of words.
#![tactic(auto)]

mod bits;
mod strip;

pub use bits::bits_are_placed;
pub use strip::DoorStrip;

#[cfg(test)]
mod tests;
