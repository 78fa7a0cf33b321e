//! What an instruction makes of its registers and of the condition code, and its puts.
use crate::ended::Ended;
use crate::puts::{put_if_some, put_next_if_some};
use crate::setting::{CodeSetting, psw_with};
use crate::view::View;
use s360_store::Puts;
use s360_word::{Cc, RegisterNumber, Word};
use std::alloc::AllocError;

/// What an instruction makes of a register, of the register after it, and of the condition code.
#[derive(Clone, Copy)]
pub struct Effect {
    /// The word that the register becomes, if it is altered.
    pub first: Option<Word>,
    /// The word that the register after it becomes, if it is altered.
    pub second: Option<Word>,
    /// What becomes of the condition code.
    pub setting: CodeSetting,
}

impl Effect {
    ghost use Rattle.std.specs.Prelude.{ℕ, ◌≡◌, ◌<◌, ◌≤◌, ◌+◌, IfOk, None, OnOk, OnSome, Some};
    ghost use Rattle.s360_store.specs.declared.place.Place.TheVariants.{Byte};
    ghost use Rattle.s360_fixed.specs.Alterations.{after_alteration, core_with_alteration, set_to, unchanged};
    ghost use Rattle.s360_fixed.specs.Plans.{PutsNothing, PutsOutcome, alteration_of};

    /// Nothing changes.
    pub fn none() -> Effect
        ensures { result ≡ record { first = None; second = None; setting = unchanged } }
    {
        Effect {
            first: None,
            second: None,
            setting: CodeSetting::unchanged(),
        }
    }

    /// A condition code alone.
    pub fn code(code: Cc) -> Effect
        ensures { result ≡ record { first = None; second = None; setting = set_to code } }
    {
        Effect {
            first: None,
            second: None,
            setting: CodeSetting::to(code),
        }
    }

    /// A result for a register.
    pub fn single(word: Word, setting: CodeSetting) -> Effect
        ensures { result ≡ record { first = Some word; second = None; setting = setting } }
    {
        Effect {
            first: Some(word),
            second: None,
            setting,
        }
    }

    /// Results for a register and the register after it.
    pub fn double(words: (Word, Word), setting: CodeSetting) -> Effect
        ensures { result ≡ record { first = Some words.0; second = Some words.1; setting = setting } }
    {
        Effect {
            first: Some(words.0),
            second: Some(words.1),
            setting,
        }
    }

    /// Puts the results from a register on, and a PSW with the condition code, after which the
    /// instruction at an address comes.
    #[inline(always)]
    pub fn put<P: Puts>(
        self,
        view: &View,
        r1: RegisterNumber,
        address: u32,
        puts: &mut P,
    ) -> Result<(), AllocError>
        requires pair { OnSome self.second (r1 + 1 < 16) }
        requires none { PutsNothing P.Puts puts.old view.now }
        ensures makes { OnOk result (P.made puts.new view.now.core ≡ core_with_alteration (alteration_of r1 self address) view.now.core) }
        ensures may { OnOk result (P.may puts.new view.now.core) }
        ensures few { OnOk result (P.count puts.new ≤ 3) }
        ensures bytes { OnOk result ((a : ℕ) → P.past puts.new (Byte a)) }
    {
        let psw = psw_with(self.setting.code, view.psw());
        let core = view.core();
        puts.put_psw(core, psw.with_instruction_address(address))?;
        put_if_some(r1, self.first, core, puts)?;
        put_next_if_some(r1, self.second, core, puts)?;
        Ok(())
    }

    /// Puts the effect alone, after which the instruction at an address comes.
    #[inline(always)]
    #[tactic(auto, using(crate::proofs::PutLemmas::follows_effect))]
    pub fn put_alone<P: Puts>(
        self,
        view: &View,
        r1: RegisterNumber,
        address: u32,
        puts: &mut P,
    ) -> Result<Ended, AllocError>
        requires pair { OnSome self.second (r1 + 1 < 16) }
        requires none { PutsNothing P.Puts puts.old view.now }
        ensures { IfOk result (PutsOutcome P.Puts puts.new view.now (after_alteration view.now.core (alteration_of r1 self address))) }
    {
        let ended = self.setting.ended(view.psw());
        self.put(view, r1, address, puts)?;
        Ok(ended)
    }

    /// Puts the effect alone, after which the next instruction comes.
    #[inline(always)]
    pub fn put_next<P: Puts>(
        self,
        view: &View,
        r1: RegisterNumber,
        puts: &mut P,
    ) -> Result<Ended, AllocError>
        requires pair { OnSome self.second (r1 + 1 < 16) }
        requires none { PutsNothing P.Puts puts.old view.now }
        ensures { IfOk result (PutsOutcome P.Puts puts.new view.now (after_alteration view.now.core (alteration_of r1 self view.now.next_address))) }
    {
        self.put_alone(view, r1, view.next_address(), puts)
    }
}
