//! The bytes of an input stored. Source: GA22-6821, "Input/Output Operations", read, and program and
//! protection check.
ghost use Rattle.std.specs.Prelude.{◌≡◌, ◌≤◌, [], IfSome, IsSome, OnErr, OnOk, length};
ghost use Rattle.s360_store.specs.declared.protection.Access.TheVariants.{Store};
ghost use Rattle.s360_store.specs.declared.protection.Checked.TheVariants.{Clear};
ghost use Rattle.s360_channel.specs.Execution.{access_of, run_of};
ghost use Rattle.s360_channel.specs.Steps.{LiesIn, StoresRun};

use s360_store::{GREATEST_SIZE, Plan, Storage};
use s360_word::ProtectionKey;
use std::alloc::AllocError;
use std::marker::Model;

/// Bytes that go to storage from an address on. A contract sees their list.
#[derive(Drop)]
pub struct Run {
    /// The address of the first.
    pub at: u32,
    /// The bytes, in the order of their addresses.
    pub bytes: Vec<u8>,
}

impl Model for Run {
    ghost use Rattle.s360_channel.specs.Execution.{Run as Seen};

    ghost Value = { Seen };

    ghost view = { λ r. record { at = r.at; bytes = r.bytes.items } };
}

/// The run of bytes that meet no check, from their lowest address on; none where there are none.
pub(crate) fn run_of(
    storage: &Storage,
    key: ProtectionKey,
    lowest: Option<u32>,
    bytes: Vec<u8>,
) -> Option<Run>
    requires short { length bytes.items ≤ 65535 }
    requires clear { access_of storage.now key Store (length bytes.items) lowest ≡ Clear }
    ensures run { result ≡ run_of lowest bytes.items }
    ensures inside { IfSome result (λ r. LiesIn storage.now r) }
{
    match lowest {
        Some(at) if !bytes.as_slice().is_empty() => Some(Run { at, bytes }),
        _ => None,
    }
}

/// Plans what a word stores.
pub(crate) fn plan_run(
    storage: &Storage,
    run: &Option<Run>,
    plan: &mut Plan,
) -> Result<(), AllocError>
    requires empty { plan.old ≡ [] }
    requires inside { IfSome run.now (λ r. LiesIn storage.now r) }
    ensures stores { OnOk result (StoresRun storage.now plan.new run.now) }
    ensures few { OnOk result (length plan.new ≤ 65535) }
    ensures memory { OnErr result (IsSome run.now) }
{
    // So no address of the bytes passes 32 bits.
    prove!(storage.size() <= GREATEST_SIZE);
    if let Some(run) = run {
        plan.put_bytes(run.at, run.bytes.as_slice())?;
    }
    Ok(())
}
