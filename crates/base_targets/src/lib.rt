// "Each target owns its named limits": what a target number stands for in a file, its write limit, its bulk limit, and the
// slot of a card target.
#![tactic(auto)]

ghost use Rattle.std.specs.Prelude.{◌≡◌};
ghost use Rattle.base_targets.specs.Target.{slot_of, missing, write_limit, bulk_start, bulk_length, outside, kind_for};

// What a target number stands for in a file: a core, PCM memory, version 3's target 3, a slot of version 4 with its card's
// bulk range, target 11, or nothing.
#[derive(Clone, Copy)]
pub enum Target {
    Core,
    Pcm,
    Bank,
    Slot { start: u32, length: u32 },
    Si22,
    Missing,
}

impl Target {
    pub const CORE_LAST: u32 = 0x8FF;

    pub const PCM_LAST: u32 = 0xFFFFF;

    pub const CARD_LAST: u32 = 0x1FFFFFF;

    pub const SI22_LAST: u32 = 0x3F;

    pub const CORE_BULK: u32 = 0x800;

    pub const PCM_BULK: u32 = 0x100000;

    pub const BANK_BULK: u32 = 0x400000;

    // The last address of a WRITE.
    pub fn write_limit(self) -> u32
        ensures { result ≡ write_limit self }
    {
        match self {
            Target::Core => Target::CORE_LAST,
            Target::Pcm => Target::PCM_LAST,
            Target::Bank => Target::CARD_LAST,
            Target::Slot {
                start: _,
                length: _,
            } => Target::CARD_LAST,
            Target::Si22 => Target::SI22_LAST,
            Target::Missing => 0,
        }
    }

    // The range of FILL and COPY: its first address, and how many there are.
    pub fn bulk_start(self) -> u32
        ensures { result ≡ bulk_start self }
    {
        match self {
            Target::Core => 0,
            Target::Pcm => 0,
            Target::Bank => 0,
            Target::Slot { start, length: _ } => start,
            Target::Si22 => 0,
            Target::Missing => 0,
        }
    }

    pub fn bulk_length(self) -> u32
        ensures { result ≡ bulk_length self }
    {
        match self {
            Target::Core => Target::CORE_BULK,
            Target::Pcm => Target::PCM_BULK,
            Target::Bank => Target::BANK_BULK,
            Target::Slot { start: _, length } => length,
            Target::Si22 => 0,
            Target::Missing => 0,
        }
    }

    // Whether a length is 0, or some of it lies out of that range.
    pub fn outside(self, address: u32, length: u32) -> bool
        ensures { result ≡ outside self address length }
    {
        let start = self.bulk_start();
        let end = start as u64 + self.bulk_length() as u64;
        if length == 0 {
            return true;
        }
        if address < start {
            return true;
        }
        end < address as u64 + length as u64
    }

    pub fn missing(self) -> bool
        ensures { result ≡ missing self }
    {
        match self {
            Target::Core => false,
            Target::Pcm => false,
            Target::Bank => false,
            Target::Slot {
                start: _,
                length: _,
            } => false,
            Target::Si22 => false,
            Target::Missing => true,
        }
    }

    // The kind of pool that a COPY takes.
    pub fn kind(self) -> u8
        ensures { result ≡ kind_for self }
    {
        match self {
            Target::Core => 1,
            Target::Pcm => 2,
            Target::Bank => 3,
            Target::Slot {
                start: _,
                length: _,
            } => 3,
            Target::Si22 => 0,
            Target::Missing => 0,
        }
    }

    // The slot of a card target; 0 for the targets below the cards'.
    pub fn slot(number: u8) -> u8
        ensures { result ≡ slot_of number }
    {
        if number < 3 { 0 } else { number - 3 }
    }
}
