//! The channel status word. Source: GA22-6821, "Input/Output Operations", channel status word.
ghost use Rattle.std.specs.Prelude.{◌≡◌, ◌≤◌};
ghost use Rattle.s360_channel.specs.Words.{channel_status_byte, channel_status_of, csw_doubleword, csw_of};
ghost use Rattle.s360_channel.specs.Words.{unit_status_byte, unit_status_of};
ghost use Rattle.s360_channel.specs.Words.{asks_attention, device_has_ended, meets_program_check};
ghost use Rattle.s360_channel.specs.Words.{no_channel_status, no_unit_status, status_halfword};
ghost use Rattle.s360_channel.specs.Words.{weight_of};

use s360_word::ProtectionKey;

/// What the unit tells, bits 32 to 39.
#[derive(Clone, Copy, PartialEq, Eq)]
pub struct UnitStatus {
    /// The unit asks for the program's attention (bit 32).
    pub attention: bool,
    /// Never given (bit 33).
    pub status_modifier: bool,
    /// Never given (bit 34).
    pub control_unit_end: bool,
    /// The unit was asked while it had another condition (bit 35).
    pub busy: bool,
    /// The channel has done its part of the command (bit 36).
    pub channel_end: bool,
    /// The device has done its part of the command (bit 37).
    pub device_end: bool,
    /// The command was refused, and the sense bytes say why (bit 38).
    pub unit_check: bool,
    /// The command met what is out of the ordinary, as the end of a form or a tape mark (bit 39).
    pub unit_exception: bool,
}

/// What the channel tells, bits 40 to 47, of which the last four are never given.
#[derive(Clone, Copy, PartialEq, Eq)]
pub struct ChannelStatus {
    /// Never given (bit 40).
    pub program_controlled: bool,
    /// The record has another length than the count (bit 41).
    pub incorrect_length: bool,
    /// The channel program is not well formed (bit 42).
    pub program_check: bool,
    /// A store was not allowed by the program's key (bit 43).
    pub protection_check: bool,
}

/// A channel status word: how a channel program ended.
#[derive(Clone, Copy, PartialEq, Eq)]
pub struct Csw {
    /// The program's protection key (bits 0 to 3).
    pub key: ProtectionKey,
    /// The address of the last channel command word plus 8 (bits 8 to 31).
    pub address: u32,
    /// Bits 32 to 39.
    pub unit: UnitStatus,
    /// Bits 40 to 47.
    pub channel: ChannelStatus,
    /// The residual count (bits 48 to 63).
    pub count: u16,
}

/// What a bit counts that is one or zero.
pub(crate) fn weight_of(one: bool, weight: u8) -> u8
    ensures weight { result ≡ weight_of one weight }
    ensures below { result ≤ weight }
{
    if one { weight } else { 0 }
}

impl UnitStatus {
    /// Nothing to tell.
    pub fn none() -> UnitStatus
        ensures { result ≡ no_unit_status }
    {
        UnitStatus {
            attention: false,
            status_modifier: false,
            control_unit_end: false,
            busy: false,
            channel_end: false,
            device_end: false,
            unit_check: false,
            unit_exception: false,
        }
    }

    /// Channel end and device end.
    pub fn ended() -> UnitStatus
        ensures { result ≡ device_has_ended }
    {
        UnitStatus {
            channel_end: true,
            device_end: true,
            ..UnitStatus::none()
        }
    }

    /// Attention alone.
    pub(crate) fn attention() -> UnitStatus
        ensures { result ≡ asks_attention }
    {
        UnitStatus {
            attention: true,
            ..UnitStatus::none()
        }
    }

    /// The bits of a byte.
    fn from_byte(byte: u8) -> UnitStatus
        ensures { result ≡ unit_status_of byte }
    {
        UnitStatus {
            attention: byte / 0x80 % 2 == 1,
            status_modifier: byte / 0x40 % 2 == 1,
            control_unit_end: byte / 0x20 % 2 == 1,
            busy: byte / 0x10 % 2 == 1,
            channel_end: byte / 0x08 % 2 == 1,
            device_end: byte / 0x04 % 2 == 1,
            unit_check: byte / 0x02 % 2 == 1,
            unit_exception: byte % 2 == 1,
        }
    }

    /// The byte of its bits.
    fn byte(&self) -> u8
        ensures { result ≡ unit_status_byte self.now }
    {
        weight_of(self.attention, 0x80)
            + weight_of(self.status_modifier, 0x40)
            + weight_of(self.control_unit_end, 0x20)
            + weight_of(self.busy, 0x10)
            + weight_of(self.channel_end, 0x08)
            + weight_of(self.device_end, 0x04)
            + weight_of(self.unit_check, 0x02)
            + weight_of(self.unit_exception, 0x01)
    }
}

impl ChannelStatus {
    /// Nothing to tell.
    pub fn none() -> ChannelStatus
        ensures { result ≡ no_channel_status }
    {
        ChannelStatus {
            program_controlled: false,
            incorrect_length: false,
            program_check: false,
            protection_check: false,
        }
    }

    /// Program check alone.
    pub(crate) fn program_check() -> ChannelStatus
        ensures { result ≡ meets_program_check }
    {
        ChannelStatus {
            program_check: true,
            ..ChannelStatus::none()
        }
    }

    /// The first four bits of a byte.
    fn from_byte(byte: u8) -> ChannelStatus
        ensures { result ≡ channel_status_of byte }
    {
        ChannelStatus {
            program_controlled: byte / 0x80 % 2 == 1,
            incorrect_length: byte / 0x40 % 2 == 1,
            program_check: byte / 0x20 % 2 == 1,
            protection_check: byte / 0x10 % 2 == 1,
        }
    }

    /// The byte of its bits.
    fn byte(&self) -> u8
        ensures { result ≡ channel_status_byte self.now }
    {
        weight_of(self.program_controlled, 0x80)
            + weight_of(self.incorrect_length, 0x40)
            + weight_of(self.program_check, 0x20)
            + weight_of(self.protection_check, 0x10)
    }
}

/// Bits 32 to 47 of a channel status word with this unit status and this channel status.
pub fn status_halfword(unit: &UnitStatus, channel: &ChannelStatus) -> u16
    ensures { result ≡ status_halfword unit.now channel.now }
{
    u16::from(unit.byte()) * 256 + u16::from(channel.byte())
}

impl Csw {
    /// The fields of a doubleword. Bits 4 to 7 and 44 to 47 are no part of them.
    pub fn from_u64(doubleword: u64) -> Csw
        ensures { result ≡ csw_of doubleword }
    {
        Csw {
            key: ProtectionKey::new((doubleword / (1 << 60)) as u8),
            address: (doubleword / (1 << 32) % (1 << 24)) as u32,
            unit: UnitStatus::from_byte((doubleword / (1 << 24) % (1 << 8)) as u8),
            channel: ChannelStatus::from_byte((doubleword / (1 << 16) % (1 << 8)) as u8),
            count: (doubleword % (1 << 16)) as u16,
        }
    }

    /// The doubleword of its fields, of the address the low 24 bits.
    pub fn to_u64(&self) -> u64
        ensures { result ≡ csw_doubleword self.now }
    {
        // A field is known to be of 16 bits once it is read.
        let count = self.count;
        u64::from(self.key.number()) * (1 << 60)
            + u64::from(self.address % (1 << 24)) * (1 << 32)
            + u64::from(status_halfword(&self.unit, &self.channel)) * (1 << 16)
            + u64::from(count)
    }
}
