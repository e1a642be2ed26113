//! The numbers that a fork stands for.
ghost use Rattle.std.specs.Prelude.{◌≡◌, ℕ, ◌+◌, ◌-◌, ◌/◌, ◌%◌, ◌^◌, ◌<◌, ◌≤◌, ◌⊎◌, MatchOption};

/// How many sides a fork has.
pub(crate) const SIDES: usize = 16;

/// The numbers that a fork stands for. Two numbers of one side differ in their lowest `shift` bits alone. The other bits of
/// a number are a number themselves: `first` for the first side, `first + 1` for the second, and so on.
#[derive(Clone, Copy, Drop)]
pub(crate) struct Block {
    pub(crate) shift: u32,
    pub(crate) first: u32,
    ghost small: { shift < 32 },
    ghost aligned: { first % 16 ≡ 0 },
    ghost fits: { first ≤ (2 ^ 32 - 1) / 2 ^ shift },
}

/// A block in which old numbers and a new one have different sides.
#[derive(Drop)]
pub(crate) struct Parting {
    pub(crate) block: Block,
    pub(crate) old_side: usize,
    pub(crate) new_side: usize,
    ghost old_within: { old_side < 16 },
    ghost new_within: { new_side < 16 },
    ghost apart: { old_side ≡ new_side → ⊥ },
}

impl Block {
    /// The side for a number, or `None` if the block hasn't got it.
    pub(crate) fn side_of(&self, key: u32) -> Option<usize>
        ensures { MatchOption result
            ((key / 2 ^ self.now.shift < self.now.first) ⊎ (self.now.first + 16 ≤ key / 2 ^ self.now.shift))
            (λ side. (side < 16) × (key / 2 ^ self.now.shift ≡ self.now.first + side)) }
    {
        let high = key >> self.shift;
        if high < self.first {
            return None;
        }
        let side = (high - self.first) as usize;
        if side < SIDES { Some(side) } else { None }
    }

    /// The least block in which all numbers of this one have one side, and a number outside of it has another one.
    pub(crate) fn parting_from(&self, key: u32) -> Parting
        requires { (key / 2 ^ self.now.shift < self.now.first) ⊎ (self.now.first + 16 ≤ key / 2 ^ self.now.shift) }
        ensures old { (q side : ℕ) → side < 16 → q / 2 ^ self.now.shift ≡ self.now.first + side
            → q / 2 ^ result.block.shift ≡ result.block.first + result.old_side }
        ensures new { key / 2 ^ result.block.shift ≡ result.block.first + result.new_side }
    {
        parting_of(self.shift + 4, self.first / 16, (key >> self.shift) / 16)
    }
}

/// The least block in which two numbers have different sides. The lowest `shift` bits of both are left out.
pub(crate) fn parting_of(shift: u32, old: u32, new: u32) -> Parting
    requires apart { old ≡ new → ⊥ }
    requires old_fits { old ≤ (2 ^ 32 - 1) / 2 ^ shift }
    requires new_fits { new ≤ (2 ^ 32 - 1) / 2 ^ shift }
    ensures old { (q : ℕ) → q / 2 ^ shift ≡ old → q / 2 ^ result.block.shift ≡ result.block.first + result.old_side }
    ensures new { (q : ℕ) → q / 2 ^ shift ≡ new → q / 2 ^ result.block.shift ≡ result.block.first + result.new_side }
{
    if old / 16 != new / 16 {
        return parting_of(shift + 4, old / 16, new / 16);
    }
    let block = Block {
        shift,
        first: old / 16 * 16,
    };
    Parting {
        block,
        old_side: (old % 16) as usize,
        new_side: (new % 16) as usize,
    }
}
