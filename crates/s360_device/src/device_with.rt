//! Devices: their sense bytes, and the two commands that every device has. Source: GA22-6821, "Input/Output
//! Operations", sense data and commands.
ghost use Rattle.std.specs.Prelude.{◌≡◌, Some};
ghost use Rattle.s360_device.specs.DeviceChanges.{TellsAlteration, with_part};
ghost use Rattle.s360_device.specs.Sense.{no_sense};

use crate::command_code::CommandCode;
use crate::device::{Begin, Device, Planned};
use crate::media::Media;
use crate::row::{Given, Row};
use crate::sense::{NO_SENSE, SenseBytes};
use std::alloc::AllocError;
use std::mem;

/// A device: its sense bytes and its media.
pub struct DeviceWith<M> {
    sense: SenseBytes,
    media: M,
}

impl<M: Drop> Drop for DeviceWith<M> {
    fn drop(self) {
        let DeviceWith { sense: _, media: _ } = self;
    }
}

/// What is exchanged with a device: the sense bytes, and what is done to its media, if anything.
pub struct DeviceChange<C> {
    media: Option<C>,
    sense: SenseBytes,
}

impl<C: Drop> Drop for DeviceChange<C> {
    fn drop(self) {
        let DeviceChange { media: _, sense: _ } = self;
    }
}

impl<M> DeviceWith<M> {
    /// A device with these media, and nothing to tell.
    pub fn with(media: M) -> DeviceWith<M>
        ensures { result ≡ record { sense = no_sense; media = media } }
    {
        DeviceWith {
            sense: SenseBytes::new(NO_SENSE),
            media,
        }
    }

    /// Its media.
    pub fn media(&self) -> &M
        ensures { result.now ≡ self.now.media }
    {
        &self.media
    }

    /// What is exchanged with it where the operator does this to its media.
    pub fn change_by<C>(&self, change: C) -> DeviceChange<C>
        ensures { result ≡ record { sense = self.now.sense; media = Some change } }
    {
        DeviceChange {
            media: Some(change),
            sense: SenseBytes::new(self.sense.bytes()),
        }
    }
}

impl<M: Media> DeviceWith<M> {
    /// What a command does that leaves these sense bytes and does this to the media.
    fn planned(
        &self,
        sense: [u8; 6],
        change: Option<M::Change>,
        exception: bool,
    ) -> Planned<DeviceChange<M::Change>>
        ensures change { result.change ≡ record { sense = sense; media = change } }
        ensures alters { TellsAlteration M.kind (with_part M.whole self.now) (record { sense = sense; media = change }) result.alters }
        ensures exception { result.exception ≡ exception }
    {
        Planned {
            alters: !self.sense.are(&sense) || change.is_some(),
            change: DeviceChange {
                media: change,
                sense: SenseBytes::new(sense),
            },
            exception,
        }
    }
}

impl<M: Media> Device for DeviceWith<M> {
    ghost use Rattle.std.specs.Prelude.{◌≡◌};
    ghost use Rattle.s360_device.specs.Commands.{command_of};
    ghost use Rattle.s360_device.specs.DeviceChanges.{CanSwapDevice, device_change_after_swap, device_needs, device_seen, room_after_swap, with_part};
    ghost use Rattle.s360_device.specs.DeviceLaws.{room-again, room-restores_change, room-restores_device};
    ghost use Rattle.s360_device.specs.Rows.{begin_of as begin_in, input_of as input_in, exception_of as exception_in, after_command};

    type Change = DeviceChange<M::Change>;

    ghost begin_of = { λ d code. begin_in M.kind.table (device_seen M.kind M.whole d) (command_of code) };

    ghost input_of = { λ d code. input_in M.kind.table (device_seen M.kind M.whole d) (command_of code) };

    ghost exception_of = { λ d code. exception_in M.kind.table (device_seen M.kind M.whole d) (command_of code) };

    ghost is_after = { λ d code bytes e. device_seen M.kind M.whole e ≡ after_command M.kind.table (device_seen M.kind M.whole d) (command_of code) bytes };

    ghost sense_of = { λ d. d.sense };

    ghost bare = { λ d. with_part (λ m. M.made (M.whole m) 0) d };

    ghost room_of = { λ d. M.room_of d.media };

    ghost needs = { λ x. device_needs M.kind x };

    ghost can_swap = { λ d x. CanSwapDevice M.kind (with_part M.whole d) x };

    ghost after_swap = { room_after_swap M.kind M.whole M.room_of M.made };

    ghost change_after_swap = { λ d x. device_change_after_swap M.kind (with_part M.whole d) x };

    ghost again = { room-again M.kind M.restores_both M.whole M.room_of M.made M.whole_of_made };

    ghost restores_device = { room-restores_device M.kind M.restores_both M.whole M.room_of M.made M.whole_of_made M.room_of_made M.made_of_parts };

    ghost restores_change = { room-restores_change M.kind M.restores_both M.whole M.room_of M.made M.whole_of_made };

    fn begin(&self, command: u8) -> Begin {
        match CommandCode::new(command) {
            CommandCode::NoOperation => Begin::Control,
            CommandCode::Sense => Begin::Input(self.sense.first(M::sense_bytes()).len() as u32),
            CommandCode::Own(code) => match self.media.row(code) {
                Row::Refused(sense) => Begin::Refused(sense),
                Row::NotYet => Begin::NotYet,
                Row::Input { .. } => Begin::Input(self.media.input(code).count() as u32),
                Row::Output { limit, .. } => Begin::Output(limit),
                Row::Control { .. } => Begin::Control,
            },
        }
    }

    fn input_byte(&self, command: u8, i: u32) -> u8 {
        match CommandCode::new(command) {
            CommandCode::NoOperation => unreachable!(),
            CommandCode::Sense => self.sense.first(M::sense_bytes())[i as usize],
            CommandCode::Own(code) => self.media.input(code).byte(i as usize),
        }
    }

    fn input_bytes(&self, command: u8, first: u32, into: &mut [u8]) {
        match CommandCode::new(command) {
            CommandCode::NoOperation => {}
            CommandCode::Sense => {
                let sense = self.sense.first(M::sense_bytes());
                Given::forward(sense).copy_to(first as usize, into);
            }
            CommandCode::Own(code) => self.media.input(code).copy_to(first as usize, into),
        }
    }

    fn plan(&self, command: u8, bytes: &[u8]) -> Result<Planned<Self::Change>, AllocError> {
        Ok(match CommandCode::new(command) {
            CommandCode::NoOperation | CommandCode::Sense => {
                self.planned(self.sense.bytes(), None, false)
            }
            CommandCode::Own(code) => match self.media.row(code) {
                Row::Refused(sense) => self.planned(sense, None, false),
                Row::NotYet => unreachable!(),
                Row::Input { change, exception } | Row::Control { change, exception } => {
                    self.planned(NO_SENSE, change, exception)
                }
                Row::Output { exception, .. } => {
                    let change = self.media.written(code, bytes)?;
                    self.planned(NO_SENSE, change, exception)
                }
            },
        })
    }

    fn room(&mut self, change: &Self::Change) -> Result<(), AllocError> {
        match &change.media {
            Some(change) => self.media.make_room(change),
            None => Ok(()),
        }
    }

    fn swap(&mut self, change: &mut Self::Change) {
        mem::swap(&mut self.sense, &mut change.sense);
        if let Some(change) = &mut change.media {
            self.media.exchange(change);
        }
    }

    fn sense(&self) -> [u8; 6] {
        self.sense.bytes()
    }

    fn copy(&self) -> Result<Self, AllocError> {
        let media = self.media.copy()?;
        Ok(DeviceWith {
            sense: SenseBytes::new(self.sense.bytes()),
            media,
        })
    }

    fn copy_change(change: &Self::Change) -> Result<Self::Change, AllocError> {
        let media = match &change.media {
            Some(change) => Some(M::copy_change(change)?),
            None => None,
        };
        Ok(DeviceChange {
            media,
            sense: SenseBytes::new(change.sense.bytes()),
        })
    }
}
