//! The commands that every device has. Source: GA22-6821, "Input/Output Operations", commands.
ghost use Rattle.std.specs.Prelude.{◌≡◌};
ghost use Rattle.s360_device.specs.Commands.{command_of};

/// A command code as every device reads it.
#[derive(Clone, Copy)]
pub enum CommandCode {
    /// 03: control no-operation.
    NoOperation,
    /// 04: sense.
    Sense,
    /// Any other code, which is the device's own matter.
    Own(u8),
}

impl CommandCode {
    /// The command of a code.
    pub fn new(code: u8) -> CommandCode
        ensures { result ≡ command_of code }
    {
        match code {
            0x03 => CommandCode::NoOperation,
            0x04 => CommandCode::Sense,
            _ => CommandCode::Own(code),
        }
    }
}
