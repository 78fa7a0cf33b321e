//! Channel command words. Source: GA22-6821, "Input/Output Operations", channel command word.
ghost use Rattle.std.specs.Prelude.{◌≡◌, ◌<◌, ◌≤◌, ◌^◌};
ghost use Rattle.s360_channel.specs.Words.{ccw_doubleword, ccw_flags_byte, ccw_flags_of, ccw_of};
ghost use Rattle.s360_channel.specs.Words.{is_transfer, reads_backward};

use crate::csw::weight_of;

/// The flags of a channel command word, bits 32 to 36.
#[derive(Clone, Copy)]
pub struct CcwFlags {
    /// Chain data: the next word goes on with the same record (bit 32).
    pub chain_data: bool,
    /// Chain command: another command follows this one (bit 33).
    pub chain_command: bool,
    /// Suppress length indication: a record of another length is no fault (bit 34).
    pub suppress_length: bool,
    /// Skip: nothing that is read is stored (bit 35).
    pub skip: bool,
    /// Program-controlled interruption, of which none is given (bit 36).
    pub program_controlled: bool,
}

/// A channel command word. Bits 40 to 47 are ignored.
#[derive(Clone, Copy)]
pub struct Ccw {
    /// The command code (bits 0 to 7).
    pub command: u8,
    /// The data address, of 24 bits (bits 8 to 31).
    pub address: u32,
    /// The flags (bits 32 to 36).
    pub flags: CcwFlags,
    /// Bits 37 to 39, which have to be zero.
    pub reserved: u8,
    /// The number of bytes (bits 48 to 63).
    pub count: u16,
}

impl CcwFlags {
    /// The flags of a doubleword.
    fn from_u64(doubleword: u64) -> CcwFlags
        ensures { result ≡ ccw_flags_of doubleword }
    {
        CcwFlags {
            chain_data: doubleword / (1 << 31) % 2 == 1,
            chain_command: doubleword / (1 << 30) % 2 == 1,
            suppress_length: doubleword / (1 << 29) % 2 == 1,
            skip: doubleword / (1 << 28) % 2 == 1,
            program_controlled: doubleword / (1 << 27) % 2 == 1,
        }
    }

    /// The byte of its bits, of which the last three are zero.
    fn byte(&self) -> u8
        ensures byte { result ≡ ccw_flags_byte self.now }
        ensures below { result ≤ 0xF8 }
    {
        weight_of(self.chain_data, 0x80)
            + weight_of(self.chain_command, 0x40)
            + weight_of(self.suppress_length, 0x20)
            + weight_of(self.skip, 0x10)
            + weight_of(self.program_controlled, 0x08)
    }
}

impl Ccw {
    /// The doubleword of its fields, of the address the low 24 bits and of the reserved bits the low three. Bits 40
    /// to 47 are zero.
    pub fn to_u64(&self) -> u64
        ensures { result ≡ ccw_doubleword self.now }
    {
        // Fields are known to be of so many bits once they are read.
        let (command, count) = (self.command, self.count);
        u64::from(command) * (1 << 56)
            + u64::from(self.address % (1 << 24)) * (1 << 32)
            + u64::from(self.flags.byte() + self.reserved % 8) * (1 << 24)
            + u64::from(count)
    }

    /// The fields of a doubleword.
    pub fn from_u64(doubleword: u64) -> Ccw
        ensures fields { result ≡ ccw_of doubleword }
        ensures address { result.address < 2 ^ 24 }
    {
        Ccw {
            command: (doubleword / (1 << 56)) as u8,
            address: (doubleword / (1 << 32) % (1 << 24)) as u32,
            flags: CcwFlags::from_u64(doubleword),
            reserved: (doubleword / (1 << 24) % 8) as u8,
            count: (doubleword % (1 << 16)) as u16,
        }
    }

    /// Whether it is a transfer in channel, of which only the address counts.
    pub fn is_transfer(&self) -> bool
        ensures { result ≡ is_transfer self.now }
    {
        self.command % 16 == 0x8
    }
}

/// Whether a command reads backward, so that its bytes go to falling addresses.
pub(crate) fn reads_backward(command: u8) -> bool
    ensures { result ≡ reads_backward command }
{
    command % 16 == 0xC
}
