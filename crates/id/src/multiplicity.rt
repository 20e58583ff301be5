// The largest count of one child: `Multiplicity` has 32 bits.
pub const MAX: u64 = 4294967295;
