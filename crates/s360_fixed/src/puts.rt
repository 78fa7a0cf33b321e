//! Puts of several registers, of several words, and of the PSW that goes on.
ghost use Rattle.std.specs.Prelude.{ℕ, ◌≡◌, ◌<◌, ◌≤◌, ◌+◌, ◌*◌, OnOk, OnSome};
ghost use Rattle.s360_model.specs.Core.{core_with_psw};
ghost use Rattle.s360_store.specs.Order.{IsBefore};
ghost use Rattle.s360_store.specs.Plans.{HasBytes, HasRegisters};
ghost use Rattle.s360_store.specs.declared.place.Place.{Place};
ghost use Rattle.s360_store.specs.declared.place.Place.TheVariants.{Byte, Register};
ghost use Rattle.s360_fixed.specs.Alterations.{core_with_words};
ghost use Rattle.s360_fixed.specs.Outcomes.{word_for};
ghost use Rattle.s360_fixed.specs.Plans.{word_loaded, words_loaded, words_stored};
ghost use Rattle.s360_fixed.specs.Storing.{next_psw, register_distance};

use crate::register_words::RegisterWords;
use crate::registers::{distance, register_after};
use crate::view::View;
use arrayvec::ArrayVec;
use s360_store::{Core, Puts};
use s360_word::{RegisterNumber, Word};
use std::alloc::AllocError;

/// Puts a word into a register, where there is one.
#[inline(always)]
pub(crate) fn put_if_some<P: Puts>(
    register: RegisterNumber,
    word: Option<Word>,
    core: &Core,
    puts: &mut P,
) -> Result<(), AllocError>
    requires may { P.may puts.old core.now }
    requires few { P.count puts.old < 1000000 }
    requires past { (q : Place) → P.past puts.old q }
    ensures made { OnOk result (P.made puts.new core.now ≡ core_with_words (word_for register word) (P.made puts.old core.now)) }
    ensures may { OnOk result (P.may puts.new core.now) }
    ensures past { OnOk result ((q : Place) → IsBefore (Register register) q → P.past puts.new q) }
    ensures few { OnOk result (P.count puts.new ≤ P.count puts.old + 1) }
{
    if let Some(word) = word {
        puts.put_register(core, register, word)?;
    }
    Ok(())
}

/// Puts a word into the register after a register, where there is one.
#[inline(always)]
pub(crate) fn put_next_if_some<P: Puts>(
    register: RegisterNumber,
    word: Option<Word>,
    core: &Core,
    puts: &mut P,
) -> Result<(), AllocError>
    requires pair { OnSome word (register + 1 < 16) }
    requires may { P.may puts.old core.now }
    requires few { P.count puts.old < 1000000 }
    requires past { (q : Place) → IsBefore (Register register) q → P.past puts.old q }
    ensures made { OnOk result (P.made puts.new core.now ≡ core_with_words (word_for (register + 1) word) (P.made puts.old core.now)) }
    ensures may { OnOk result (P.may puts.new core.now) }
    ensures bytes { OnOk result ((a : ℕ) → P.past puts.new (Byte a)) }
    ensures few { OnOk result (P.count puts.new ≤ P.count puts.old + 1) }
{
    if let Some(word) = word {
        let next = RegisterNumber::new(register.number() + 1);
        puts.put_register(core, next, word)?;
    }
    Ok(())
}

/// Puts the PSW of an instruction that sets no condition code and does not branch.
#[inline(always)]
pub fn put_next_psw<P: Puts>(view: &View, puts: &mut P) -> Result<(), AllocError>
    requires may { P.may puts.old view.now.core }
    requires few { P.count puts.old < 1000000 }
    ensures made { OnOk result (P.made puts.new view.now.core ≡ core_with_psw (next_psw view.now) (P.made puts.old view.now.core)) }
    ensures may { OnOk result (P.may puts.new view.now.core) }
    ensures past { OnOk result ((q : Place) → P.past puts.old q → P.past puts.new q) }
    ensures few { OnOk result (P.count puts.new ≤ P.count puts.old + 1) }
{
    let psw = view.psw().with_instruction_address(view.next_address());
    puts.put_psw(view.core(), psw)?;
    Ok(())
}

/// Puts its word into a register, if that is among those that are loaded.
#[inline(always)]
fn put_loaded<P: Puts>(
    view: &View,
    words: &RegisterWords,
    register: RegisterNumber,
    puts: &mut P,
) -> Result<(), AllocError>
    requires inside { HasBytes words.now.address (4 * words.now.count) view.now.core }
    requires may { P.may puts.old view.now.core }
    requires few { P.count puts.old < 1000000 }
    requires past { (k : ℕ) → register ≤ k → P.past puts.old (Register k) }
    ensures made { OnOk result (P.made puts.new view.now.core ≡ word_loaded view.now words.now register (P.made puts.old view.now.core)) }
    ensures may { OnOk result (P.may puts.new view.now.core) }
    ensures past { OnOk result ((k : ℕ) → register < k → P.past puts.new (Register k)) }
    ensures few { OnOk result (P.count puts.new ≤ P.count puts.old + 1) }
{
    let place = distance(words.r1, register);
    if place < words.count {
        let word = view.storage().word(words.address + 4 * u32::from(place));
        puts.put_register(view.core(), register, word)?;
    }
    Ok(())
}

/// The numbers from which and up to which the registers are that are loaded: of all, where 0 follows 15 among them.
fn loaded_numbers(words: &RegisterWords) -> (u8, u8)
    requires count { words.now.count ≤ 16 }
    ensures order { result.0 ≤ result.1 }
    ensures most { result.1 ≤ 16 }
    ensures before { (r : ℕ) → r < result.0 → words.now.count ≤ register_distance words.now.r1 r }
    ensures behind { (r : ℕ) → result.1 ≤ r → r < 16 → words.now.count ≤ register_distance words.now.r1 r }
{
    let first = words.r1.number();
    if first + words.count <= 16 {
        (first, first + words.count)
    } else {
        (0, 16)
    }
}

/// Puts successive words into so many registers, from R1 on, 15 followed by 0: in the order of the registers' numbers.
pub(crate) fn put_registers<P: Puts>(
    view: &View,
    words: &RegisterWords,
    puts: &mut P,
) -> Result<(), AllocError>
    requires inside { HasBytes words.now.address (4 * words.now.count) view.now.core }
    requires count { words.now.count ≤ 16 }
    requires may { P.may puts.old view.now.core }
    requires few { P.count puts.old + 16 ≤ 1000000 }
    requires past { (q : Place) → P.past puts.old q }
    requires sixteen { HasRegisters (P.made puts.old view.now.core) }
    ensures made { OnOk result (P.made puts.new view.now.core ≡ words_loaded view.now words.now (P.made puts.old view.now.core)) }
    ensures may { OnOk result (P.may puts.new view.now.core) }
    ensures few { OnOk result (P.count puts.new ≤ P.count puts.old + 16) }
{
    // So R1 is the number of a register.
    prove!(words.r1.number() < 16);
    let (first, past) = loaded_numbers(words);
    for number in first..past {
        put_loaded(view, words, RegisterNumber::new(number), puts)?;
    }
    Ok(())
}

/// So many bytes all registers have.
const MOST: usize = 64;

/// Puts so many registers, from R1 on, 15 followed by 0, into successive words.
pub(crate) fn put_words<P: Puts>(
    view: &View,
    words: &RegisterWords,
    puts: &mut P,
) -> Result<(), AllocError>
    requires inside { HasBytes words.now.address (4 * words.now.count) view.now.core }
    requires count { words.now.count ≤ 16 }
    requires may { P.may puts.old view.now.core }
    requires few { P.count puts.old + 4 * words.now.count ≤ 1000000 }
    requires past { (q : Place) → P.past puts.old q }
    ensures made { OnOk result (P.made puts.new view.now.core ≡ words_stored view.now words.now (P.made puts.old view.now.core)) }
    ensures may { OnOk result (P.may puts.new view.now.core) }
    ensures few { OnOk result (P.count puts.new ≤ P.count puts.old + 4 * words.now.count) }
{
    let mut bytes = ArrayVec::<u8, MOST>::new();
    for i in 0..words.count {
        let word = view.register(register_after(words.r1, i)).to_be_bytes();
        bytes.try_extend_from_slice(&word).unwrap();
    }
    puts.put_bytes(view.core(), words.address, bytes.as_slice())?;
    Ok(())
}
