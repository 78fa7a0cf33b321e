//! What a line that saves is answered.
ghost use Rattle.std.specs.Prelude.{◌≡◌, ◌++◌, IfOk, OnOk};
ghost use Rattle.s360_saving.specs.Outcomes.{amount_text, fault_name, outcome_text, saved_count};

use crate::file::Amount;
use s360_text::Text;
use std::alloc::{AllocError, Global};

/// Why a file was not written.
#[derive(Clone, Copy, PartialEq, Eq)]
pub enum SaveFault {
    /// A file of its name is there, and it is not to be written over.
    Exists,
    /// It did not open, or its name is none.
    CannotOpen,
    /// A write failed, or took no byte. The file may have a beginning of its bytes.
    WriteFailed,
}

/// What tells how much was saved, or why nothing was.
pub fn outcome_text(
    alloc: Global,
    amount: Amount,
    outcome: Result<(), SaveFault>,
) -> Result<Text, AllocError>
    ensures { IfOk result (λ text. text ≡ outcome_text amount outcome) }
{
    let mut text = Text::new(alloc);
    match outcome {
        Ok(()) => push_amount(&mut text, amount)?,
        Err(fault) => {
            text.push_text("not saved: ")?;
            text.push_text(name_of(fault))?;
        }
    }
    text.push_text("\n")?;
    Ok(text)
}

/// Adds how much was saved.
fn push_amount(text: &mut Text, amount: Amount) -> Result<(), AllocError>
    ensures { OnOk result (text.new ≡ text.old ++ amount_text amount) }
{
    match amount {
        Amount::Pages(count) => push_count(text, u64::from(count), "page"),
        Amount::Cards(count) => push_count(text, count as u64, "card"),
        Amount::Lines(count) => push_count(text, count as u64, "line"),
        Amount::Bytes(count) => push_count(text, count as u64, "byte"),
    }
}

/// Adds that so many of a kind were saved.
fn push_count(text: &mut Text, count: u64, kind: &str) -> Result<(), AllocError>
    ensures { OnOk result (text.new ≡ text.old ++ saved_count count kind.now) }
{
    text.push_counted("saved ", count)?;
    text.push_text(" ")?;
    text.push_text(kind)?;
    if count == 1 {
        return Ok(());
    }
    text.push_text("s")
}

/// What a fault is told as.
fn name_of(fault: SaveFault) -> &'static str
    ensures { result.now ≡ fault_name fault }
{
    match fault {
        SaveFault::Exists => "file exists",
        SaveFault::CannotOpen => "cannot open",
        SaveFault::WriteFailed => "write failed",
    }
}
