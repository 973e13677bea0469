// A field of a 32-bit word: so many bits, from a lowest one on.
ghost use Rattle.std.specs.Prelude.{◌≡◌, ◌+◌, ◌*◌, ◌/◌, ◌%◌, ◌^◌, ◌<◌, ◌≤◌};
ghost use Rattle.std.specs.Option.{SomeIff};

#[derive(Clone, Copy)]
pub(crate) struct Field {
    pub(crate) low: u32,
    pub(crate) width: u32,
    ghost ends: { low + width ≤ 32 },
    ghost starts: { low < 32 },
    ghost narrow: { width < 32 },
}

impl Field {
    // What stands in the field.
    pub(crate) fn of(self, bits: u32) -> u32
        ensures { result ≡ bits / 2 ^ self.low % 2 ^ self.width }
    {
        (bits >> self.low) & ((1 << self.width) - 1)
    }

    // The bits with the value put into the field, where it and all below were 0; nothing where the value has too many bits.
    pub(crate) fn put(self, bits: u32, value: u32) -> Option<u32>
        requires { bits % 2 ^ (self.low + self.width) ≡ 0 }
        ensures { SomeIff result (value < 2 ^ self.width) (bits + value * 2 ^ self.low) }
    {
        if value >> self.width != 0 {
            return None;
        }
        Some(bits | (value << self.low))
    }
}
