//! What an expression reads of a target. Source: gdb manual, "The GDB Agent Expression Mechanism", "Bytecode
//! Descriptions", `reg` and `ref8` to `ref64`.
ghost use Rattle.std.specs.Prelude.{◌≡◌, slice_get};
ghost use Rattle.s360_condition.specs.Target.{Target};

/// A target of which an expression reads registers and storage.
pub trait Readable {
    // the words of its registers, and the bytes of its storage
    ghost target_of: { Self → Target };

    /// The word of the register of this number in the target's description, if the target has it.
    fn register(&self, number: u16) -> Option<u32>
        ensures { result ≡ slice_get (target_of self.now).registers number };

    /// The byte at an address, if it is in storage.
    fn byte(&self, at: u32) -> Option<u8>
        ensures { result ≡ slice_get (target_of self.now).storage at };
}
