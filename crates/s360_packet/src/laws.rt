//! Laws of the definitions, each the contract of a call that does nothing.
ghost use Rattle.s360_packet.specs.Laws.{PacketsAreReadBack, PacketsTooLongAreTold, AllRegistersAreEach};
ghost use Rattle.s360_packet.specs.Laws.{BytesBetweenAreDropped};
ghost use Rattle.s360_packet.specs.Laws.{RequestsAreReadBack, BinaryWritesAreReadBack};

/// Data that is sent as a packet is received as that data, at the packet's last byte. If it is more than was told,
/// that is told there. Bytes between packets change nothing, and of them only Ctrl-C completes something.
pub fn packets_are_read_back()
    ensures whole { PacketsAreReadBack }
    ensures too_long { PacketsTooLongAreTold }
    ensures between { BytesBetweenAreDropped }
{}

/// All registers are answered as each is, one after another in the order of their numbers.
pub fn all_registers_are_each()
    ensures { AllRegistersAreEach }
{}

/// A request that is written is read as that request, and so is one of the two forms of a write of storage.
pub fn requests_are_read_back()
    ensures each { RequestsAreReadBack }
    ensures binary { BinaryWritesAreReadBack }
{}
