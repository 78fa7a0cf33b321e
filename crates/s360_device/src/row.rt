//! What a command of a device's own is to it. Source: GA22-6821, "Input/Output Operations".
ghost use Rattle.std.specs.Prelude.{◌≡◌, ◌<◌, ◌≤◌, ◌+◌, [], length, reverse, slice_index};
ghost use Rattle.std.specs.List.{slice_range};
ghost use Rattle.s360_device.specs.DeviceRows.{bytes_given};

/// The row of a device's own command, as the device stands. Its change is what it does to the media, where they do
/// not stay as they are. There may be unit exception.
#[derive(Drop)]
pub enum Row<C> {
    /// It is refused, with these sense bytes.
    Refused([u8; 6]),
    /// It is not answered yet.
    NotYet,
    /// It gives bytes.
    Input { change: Option<C>, exception: bool },
    /// It takes at most so many bytes.
    Output { limit: u32, exception: bool },
    /// It moves no byte.
    Control { change: Option<C>, exception: bool },
}

/// The bytes that a command gives: the first of them first, or backward the last.
#[derive(Clone, Copy)]
pub struct Given<'a> {
    bytes: &'a [u8],
    backward: bool,
}

impl<'a> Given<'a> {
    /// These bytes.
    pub fn forward(bytes: &'a [u8]) -> Given<'a>
        ensures { bytes_given result ≡ bytes.now }
    {
        Given {
            bytes,
            backward: false,
        }
    }

    /// These bytes from the last to the first.
    pub fn backward(bytes: &'a [u8]) -> Given<'a>
        ensures { bytes_given result ≡ reverse bytes.now }
    {
        Given {
            bytes,
            backward: true,
        }
    }

    /// None.
    pub fn nothing() -> Given<'a>
        ensures { bytes_given result ≡ [] }
    {
        Given::forward(&[])
    }

    /// How many they are.
    pub(crate) fn count(self) -> usize
        ensures { result ≡ length (bytes_given self.entry) }
    {
        self.bytes.len()
    }

    /// One of them, counted from 0.
    pub(crate) fn byte(self, i: usize) -> u8
        requires inside { i < length (bytes_given self) }
        ensures { result ≡ slice_index (bytes_given self.entry) i }
    {
        if self.backward {
            self.bytes[self.bytes.len() - 1 - i]
        } else {
            self.bytes[i]
        }
    }

    /// Those from the one at `first` on, as many as there are places.
    pub(crate) fn copy_to(self, first: usize, into: &mut [u8])
        requires inside { first + length into.old ≤ length (bytes_given self) }
        ensures { into.new ≡ slice_range (bytes_given self.entry) first (first + length into.old) }
    {
        if self.backward {
            let end = self.bytes.len() - first;
            into.copy_from_slice(&self.bytes[end - into.len()..end]);
            into.reverse();
        } else {
            into.copy_from_slice(&self.bytes[first..first + into.len()]);
        }
    }
}
