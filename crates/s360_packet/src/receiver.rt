//! Packets as they are received, a byte at a time. Source: gdb manual, "Remote Serial Protocol", "Overview",
//! "Packet Acknowledgment" and "Interrupts".
ghost use Rattle.std.specs.Prelude.{◌≡◌, ◌≤◌, Some, None, IfOk, length};
ghost use Rattle.s360_packet.specs.Receiving.{between_packets, after_byte, received_at};
ghost use Rattle.s360_packet.specs.Receiving.{begun, ended, with_data, after_data, after_escape, after_first};
ghost use Rattle.s360_packet.specs.Receiving.{received_in, whole_packet};
ghost use Rattle.s360_packet.specs.Receiving.{acknowledgement_of};

use std::alloc::{AllocError, Global};
use std::marker::Model;

/// The byte of Ctrl-C.
const INTERRUPT: u8 = 0x03;

/// What a byte completed.
#[derive(Clone, Copy, PartialEq, Eq)]
pub enum Received {
    /// A packet, whose data the receiver lends until the next packet begins.
    Packet,
    /// A packet that was right, but has more data than was told.
    TooLong,
    /// A packet whose sum is wrong, or no two hexadecimal digits, or that ends with an escape.
    Damaged,
    /// The byte by which gdb's user interrupts the machine, between packets.
    Interrupt,
}

/// Whether packets are acknowledged.
#[derive(Clone, Copy, PartialEq, Eq)]
pub enum Acknowledging {
    /// Each is, by a byte.
    On,
    /// None is, from the answer to `QStartNoAckMode` on.
    Off,
}

impl Received {
    /// The byte that acknowledges it, or asks for it once more, if one is sent.
    pub fn acknowledgement(self, acknowledging: Acknowledging) -> Option<u8>
        ensures { result ≡ acknowledgement_of acknowledging self }
    {
        match (acknowledging, self) {
            (Acknowledging::Off, _) | (Acknowledging::On, Received::Interrupt) => None,
            (Acknowledging::On, Received::Damaged) => Some(b'-'),
            (Acknowledging::On, Received::Packet | Received::TooLong) => Some(b'+'),
        }
    }
}

/// Where in a packet the next byte stands.
#[derive(Clone, Copy, PartialEq, Eq)]
pub enum Stage {
    /// In none.
    Between,
    /// In the data.
    Data,
    /// In the data, behind the byte that escapes the next one.
    Escape,
    /// Behind the data: the first digit of the sum.
    FirstDigit,
    /// The last digit of the sum, behind a digit of this value.
    LastDigit(u8),
}

/// Receives packets. It holds at most as many bytes of data as were told, in memory that it has from the start.
#[derive(Drop)]
pub struct Receiver {
    stage: Stage,
    size: usize,
    bytes: Vec<u8>,
    total: u8,
    overlong: bool,
}

impl Model for Receiver {
    ghost use Rattle.std.specs.Prelude.{length, ◌≤◌, vec_capacity};
    ghost use Rattle.s360_packet.specs.Receiving.{Receiving};

    ghost Value = { Receiving };

    ghost view = { λ r. record { stage = r.stage; size = r.size; bytes = r.bytes.items; total = r.total; overlong = r.overlong } };

    ghost invariant = { λ r. (length r.bytes.items ≤ r.size) × (r.size ≤ vec_capacity r.bytes) };
}

impl Receiver {
    /// A receiver between packets, of packets with at most so many bytes of data.
    pub fn new(alloc: Global, size: usize) -> Result<Receiver, AllocError>
        ensures { IfOk result (λ receiver. receiver ≡ between_packets size) }
    {
        Ok(Receiver {
            stage: Stage::Between,
            size,
            bytes: Vec::with_capacity(alloc, size)?,
            total: 0,
            overlong: false,
        })
    }

    /// Takes the next byte, and says what it completed.
    pub fn take(&mut self, byte: u8) -> Option<Received>
        ensures after { self.new ≡ after_byte self.old byte }
        ensures received { result ≡ received_at self.old byte }
    {
        if byte == b'$' {
            self.begin();
            return None;
        }
        match self.stage {
            Stage::Between if byte == INTERRUPT => Some(Received::Interrupt),
            Stage::Between => None,
            Stage::Data => {
                self.take_in_data(byte);
                None
            }
            Stage::Escape => self.take_escaped(byte),
            Stage::FirstDigit => self.take_first_digit(byte),
            Stage::LastDigit(first) => self.take_last_digit(first, byte),
        }
    }

    /// The data of the packet that came last, or what has come of it so far.
    pub fn data(&self) -> &[u8]
        ensures bytes { result.now ≡ self.now.bytes }
        ensures within { length result.now ≤ self.now.size }
    {
        self.bytes.as_slice()
    }

    /// A packet begins.
    fn begin(&mut self)
        ensures { self.new ≡ begun self.old }
    {
        self.stage = Stage::Data;
        self.bytes.clear();
        self.total = 0;
        self.overlong = false;
    }

    /// The byte stands in the data.
    fn take_in_data(&mut self, byte: u8)
        ensures { self.new ≡ after_data self.old byte }
    {
        match byte {
            b'#' => self.stage = Stage::FirstDigit,
            b'}' => {
                self.total = self.total.wrapping_add(byte);
                self.stage = Stage::Escape;
            }
            _ => {
                self.total = self.total.wrapping_add(byte);
                self.put(byte);
            }
        }
    }

    /// The byte is escaped.
    fn take_escaped(&mut self, byte: u8) -> Option<Received>
        ensures after { self.new ≡ after_escape self.old byte }
        ensures received { result ≡ received_in Stage.Escape self.old byte }
    {
        if byte == b'#' {
            self.stage = Stage::Between;
            return Some(Received::Damaged);
        }
        self.total = self.total.wrapping_add(byte);
        self.put(byte ^ 0x20);
        None
    }

    /// The byte is to be the first digit of the sum.
    fn take_first_digit(&mut self, byte: u8) -> Option<Received>
        ensures after { self.new ≡ after_first self.old byte }
        ensures received { result ≡ received_in Stage.FirstDigit self.old byte }
    {
        let Some(first) = char::from(byte).to_digit(16) else {
            self.stage = Stage::Between;
            return Some(Received::Damaged);
        };
        self.stage = Stage::LastDigit(first as u8);
        None
    }

    /// The byte is to be the last digit of the sum, behind a digit of this value.
    fn take_last_digit(&mut self, first: u8, byte: u8) -> Option<Received>
        ensures after { self.new ≡ ended self.old }
        ensures received { result ≡ Some (whole_packet self.old first byte) }
    {
        self.stage = Stage::Between;
        match char::from(byte).to_digit(16) {
            Some(last) if u32::from(first) * 16 + last == u32::from(self.total) => {
                if self.overlong {
                    Some(Received::TooLong)
                } else {
                    Some(Received::Packet)
                }
            }
            _ => Some(Received::Damaged),
        }
    }

    /// A byte more of the data, if there is room for it.
    fn put(&mut self, value: u8)
        ensures { self.new ≡ with_data self.old value }
    {
        self.stage = Stage::Data;
        if self.bytes.len() < self.size {
            self.bytes.push_reserved(value);
        } else {
            self.overlong = true;
        }
    }
}
