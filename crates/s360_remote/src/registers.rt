//! The registers that gdb knows, as words. Source: GA22-6821, "System Structure", program status word; gdb's feature
//! org.gnu.gdb.s390.core.
ghost use Rattle.std.specs.Prelude.{◌≡◌, ◌<◌, ◌^◌};
ghost use Rattle.s360_machine.specs.Machine.{seen};
ghost use Rattle.s360_remote.specs.Registers.{address_word_of, mask_word_of, patch_of_psw, patch_of_word, psw_of_words, words_of_machine};

use s360_machine::{Machine, Patch};
use s360_packet::REGISTERS;
use s360_psw::{InstructionLength, Psw};
use s360_word::RegisterNumber;

/// The number of gdb's register that has the mask word.
const MASK_WORD: usize = 0;

/// The number of the one that has the address word.
const ADDRESS_WORD: usize = 1;

/// The number of the first general register.
const GENERAL: usize = 2;

/// Both words of a PSW: the mask word and the address word.
fn words_of_psw(psw: Psw) -> (u32, u32)
    ensures mask { result.0 ≡ mask_word_of psw }
    ensures address { result.1 ≡ address_word_of psw }
{
    let doubleword = psw.stored(0, InstructionLength::NotAvailable);
    let masks = (doubleword / (1 << 48)) as u32 * (1 << 16);
    let code_and_mask = (doubleword / (1 << 24) % (1 << 6)) as u32 * (1 << 8);
    (masks + code_and_mask, (doubleword % (1 << 24)) as u32)
}

/// The doubleword of a PSW that has these two words.
fn psw_of_words(mask: u32, address: u32) -> u64
    ensures { result ≡ psw_of_words mask address }
{
    let (mask, address) = (u64::from(mask), u64::from(address));
    mask / (1 << 16) * (1 << 48) + mask / (1 << 8) % (1 << 6) * (1 << 24) + address % (1 << 24)
}

/// What loads a PSW that has these two words.
pub fn patch_of_psw(mask: u32, address: u32) -> Patch
    ensures { result ≡ patch_of_psw mask address }
{
    Patch::Psw(psw_of_words(mask, address))
}

/// The words of gdb's registers.
pub fn words_of_machine(machine: &Machine) -> [u32; REGISTERS]
    ensures { result ≡ words_of_machine (seen machine.now.whole) }
{
    let mut words = [0; REGISTERS];
    let (mask, address) = words_of_psw(machine.psw());
    words[MASK_WORD] = mask;
    words[ADDRESS_WORD] = address;
    for number in 0..16 {
        words[GENERAL + usize::from(number)] = machine.register(RegisterNumber::new(number));
    }
    words
}

/// What puts a word into a register of gdb's, by its number.
pub fn patch_of_word(machine: &Machine, number: u8, word: u32) -> Patch
    requires { number < 18 }
    ensures { result ≡ patch_of_word (seen machine.now.whole) number word }
{
    let (mask, address) = words_of_psw(machine.psw());
    match number {
        0 => Patch::Psw(psw_of_words(word, address)),
        1 => Patch::Psw(psw_of_words(mask, word)),
        _ => Patch::Register(RegisterNumber::new(number - 2), word),
    }
}
