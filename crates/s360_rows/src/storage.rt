//! Bytes put into main storage.
use s360_store::{Cell, Place, Storage};

/// Puts a byte or a storage key into storage, if it has the place and the value fits.
pub(crate) fn put(storage: &mut Storage, place: Place, value: u64) {
    let mut cell = Cell { place, value };
    match place {
        Place::Byte(address) if address < storage.size() && value < 256 => {
            storage.swap(&mut cell);
        }
        Place::Key(block) if block < storage.size() / 2048 && value < 16 => {
            storage.swap(&mut cell);
        }
        _ => {}
    }
}

/// Puts bytes into storage from an address on.
pub(crate) fn put_bytes(storage: &mut Storage, address: u32, bytes: &[u8]) {
    for (at, byte) in (address..0x2000).zip(bytes) {
        put(storage, Place::Byte(at), u64::from(*byte));
    }
}
