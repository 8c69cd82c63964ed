// Where the bits of a strip stand, as the contract of a function, so that the crate does not stand without its proof.
ghost use Rattle.strips.specs.Bits.{BitsArePlaced};

// Bit j of a row of words is bit j mod 64 of word j div 64.
pub fn bits_are_placed()
    ensures { BitsArePlaced }
{}
