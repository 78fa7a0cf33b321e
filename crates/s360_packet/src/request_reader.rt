//! Reads a packet's data as a request. Each name has its row, and each request with fields a function of its own.
ghost use Rattle.std.specs.Prelude.{◌≡◌, Ok};
ghost use Rattle.s360_packet.specs.Requests.{Reads, reading_of, fields_reading, query_reading, point_out_reading, point_reading};
ghost use Rattle.s360_packet.specs.Requests.{named_request, named_query, thread_reading};
ghost use Rattle.s360_packet.specs.Requests.{storage_reading, write_reading, register_reading, write_register_reading};
ghost use Rattle.s360_packet.specs.Requests.{write_registers_reading, insert_reading, remove_reading, select_reading};
ghost use Rattle.s360_packet.specs.Requests.{breakpoint_reading, memory_map_reading, extent_in};
ghost use Rattle.s360_packet.specs.Requests.{alive_reading, description_reading, command_reading, kill_reading};
ghost use Rattle.s360_packet.specs.Requests.{bytes_in};

use crate::fields::{behind, bytes, is, number, parted, thread, two_numbers, word};
use crate::request::{Breakpoint, Payload, Point, Request, RequestFault, Watchpoint};
use std::alloc::Global;

/// The request that a packet's data is. A fault is answered whatever memory there is, and only a request that
/// carries bytes wants memory.
pub fn read_request(alloc: Global, text: &[u8]) -> Result<Request, RequestFault>
    ensures { Reads (reading_of text.now) result }
{
    match named_request(text) {
        Some(request) => Ok(request),
        None => read_fields(alloc, text),
    }
}

/// A request of nothing but its name.
fn named_request(text: &[u8]) -> Option<Request>
    ensures { result ≡ named_request text.now }
{
    if is(text, "?") {
        Some(Request::Stopped)
    } else if is(text, "g") {
        Some(Request::Registers)
    } else if is(text, "s") {
        Some(Request::Step)
    } else if is(text, "c") {
        Some(Request::Continue)
    } else if is(text, "bs") {
        Some(Request::StepBack)
    } else if is(text, "bc") {
        Some(Request::ContinueBack)
    } else if is(text, "D") {
        Some(Request::Detach)
    } else if is(text, "k") {
        Some(Request::Kill)
    } else if is(text, "!") {
        Some(Request::Extend)
    } else {
        named_query(text)
    }
}

/// A query of nothing but its name.
fn named_query(text: &[u8]) -> Option<Request>
    ensures { result ≡ named_query text.now }
{
    if is(text, "qSupported") {
        Some(Request::Supported)
    } else if is(text, "qC") {
        Some(Request::CurrentThread)
    } else if is(text, "qAttached") {
        Some(Request::Attached)
    } else if is(text, "qfThreadInfo") {
        Some(Request::FirstThreads)
    } else if is(text, "qsThreadInfo") {
        Some(Request::NextThreads)
    } else if is(text, "QStartNoAckMode") {
        Some(Request::StopAcknowledging)
    } else if is(text, "qs360.moved") {
        Some(Request::HasMoved)
    } else {
        None
    }
}

/// A request with fields: of storage, of registers, a line for the target, or a breakpoint.
fn read_fields(alloc: Global, text: &[u8]) -> Result<Request, RequestFault>
    ensures { Reads (fields_reading text.now) result }
{
    if let Some(rest) = behind(text, "m") {
        read_storage(rest)
    } else if let Some(rest) = behind(text, "M") {
        read_write(alloc, rest)
    } else if let Some(rest) = behind(text, "X") {
        read_binary_write(alloc, rest)
    } else if let Some(rest) = behind(text, "p") {
        read_register(rest)
    } else if let Some(rest) = behind(text, "P") {
        read_write_register(rest)
    } else if let Some(rest) = behind(text, "G") {
        read_write_registers(alloc, rest)
    } else if let Some(rest) = behind(text, "qRcmd,") {
        read_line(alloc, rest)
    } else if let Some(rest) = behind(text, "Z0,") {
        read_breakpoint(alloc, Breakpoint::Software, rest)
    } else if let Some(rest) = behind(text, "Z1,") {
        read_breakpoint(alloc, Breakpoint::Hardware, rest)
    } else {
        read_thread(text)
    }
}

/// A request with fields: to run from an address, or of a thread.
fn read_thread(text: &[u8]) -> Result<Request, RequestFault>
    ensures { result ≡ thread_reading text.now }
{
    if let Some(_) = behind(text, "s") {
        Err(RequestFault::Malformed)
    } else if let Some(_) = behind(text, "c") {
        Err(RequestFault::Malformed)
    } else if let Some(rest) = behind(text, "Hg") {
        read_select(rest)
    } else if let Some(rest) = behind(text, "Hc") {
        read_select(rest)
    } else if let Some(rest) = behind(text, "T") {
        read_alive(rest)
    } else {
        read_query(text)
    }
}

/// A query with fields, or the end or the start of a process.
fn read_query(text: &[u8]) -> Result<Request, RequestFault>
    ensures { result ≡ query_reading text.now }
{
    if let Some(_) = behind(text, "qSupported:") {
        Ok(Request::Supported)
    } else if let Some(rest) = behind(text, "qXfer:features:read:") {
        read_description(rest)
    } else if let Some(rest) = behind(text, "qXfer:memory-map:read:") {
        read_memory_map(rest)
    } else if let Some(rest) = behind(text, "vKill;") {
        read_kill(rest)
    } else if let Some(_) = behind(text, "vRun;") {
        Ok(Request::Run)
    } else if let Some(_) = behind(text, "R") {
        Ok(Request::Restart)
    } else {
        read_point(text)
    }
}

/// A request that sets a watch, or takes a stop out.
fn read_point(text: &[u8]) -> Result<Request, RequestFault>
    ensures { result ≡ point_reading text.now }
{
    if let Some(rest) = behind(text, "Z2,") {
        read_insert(Point::Watch(Watchpoint::Write), rest)
    } else if let Some(rest) = behind(text, "Z3,") {
        read_insert(Point::Watch(Watchpoint::Read), rest)
    } else if let Some(rest) = behind(text, "Z4,") {
        read_insert(Point::Watch(Watchpoint::Access), rest)
    } else {
        read_point_out(text)
    }
}

/// A request that takes a stop out.
fn read_point_out(text: &[u8]) -> Result<Request, RequestFault>
    ensures { result ≡ point_out_reading text.now }
{
    if let Some(rest) = behind(text, "z0,") {
        read_remove(Point::Break(Breakpoint::Software), rest)
    } else if let Some(rest) = behind(text, "z1,") {
        read_remove(Point::Break(Breakpoint::Hardware), rest)
    } else if let Some(rest) = behind(text, "z2,") {
        read_remove(Point::Watch(Watchpoint::Write), rest)
    } else if let Some(rest) = behind(text, "z3,") {
        read_remove(Point::Watch(Watchpoint::Read), rest)
    } else if let Some(rest) = behind(text, "z4,") {
        read_remove(Point::Watch(Watchpoint::Access), rest)
    } else {
        Err(RequestFault::Unknown)
    }
}

/// `m`
fn read_storage(text: &[u8]) -> Result<Request, RequestFault>
    ensures { result ≡ storage_reading text.now }
{
    let (at, count) = two_numbers(text)?;
    Ok(Request::Storage { at, count })
}

/// `M`
fn read_write(alloc: Global, text: &[u8]) -> Result<Request, RequestFault>
    ensures { Reads (write_reading 2 bytes_in text.now) result }
{
    let (head, text) = parted(text, b':')?;
    let (at, count) = two_numbers(head)?;
    if text.len() != 2 * count as usize {
        return Err(RequestFault::Malformed);
    }
    let bytes = bytes(alloc, text)?;
    Ok(Request::WriteStorage { at, bytes })
}

/// `X`
fn read_binary_write(alloc: Global, text: &[u8]) -> Result<Request, RequestFault>
    ensures { Reads (write_reading 1 (λ bytes. Ok bytes) text.now) result }
{
    let (head, data) = parted(text, b':')?;
    let (at, count) = two_numbers(head)?;
    if data.len() != count as usize {
        return Err(RequestFault::Malformed);
    }
    let bytes = Payload::new(data.to_vec(alloc)?);
    Ok(Request::WriteStorage { at, bytes })
}

/// `p`
fn read_register(text: &[u8]) -> Result<Request, RequestFault>
    ensures { result ≡ register_reading text.now }
{
    let number = number(text)?;
    Ok(Request::Register(number))
}

/// `P`
fn read_write_register(text: &[u8]) -> Result<Request, RequestFault>
    ensures { result ≡ write_register_reading text.now }
{
    let (head, rest) = parted(text, b'=')?;
    let number = number(head)?;
    let word = word(rest)?;
    Ok(Request::WriteRegister { number, word })
}

/// `G`
fn read_write_registers(alloc: Global, text: &[u8]) -> Result<Request, RequestFault>
    ensures { Reads (write_registers_reading text.now) result }
{
    let bytes = bytes(alloc, text)?;
    Ok(Request::WriteRegisters(bytes))
}

/// `Z`
fn read_insert(point: Point, text: &[u8]) -> Result<Request, RequestFault>
    ensures { result ≡ insert_reading point text.now }
{
    let (at, kind) = two_numbers(text)?;
    Ok(Request::Insert { point, at, kind })
}

/// `Z` of a breakpoint, with conditions or without.
fn read_breakpoint(alloc: Global, point: Breakpoint, text: &[u8]) -> Result<Request, RequestFault>
    ensures { Reads (breakpoint_reading point text.now) result }
{
    let Ok((head, conditions)) = parted(text, b';') else {
        return read_insert(Point::Break(point), text);
    };
    let (at, kind) = two_numbers(head)?;
    let conditions = Payload::new(conditions.to_vec(alloc)?);
    Ok(Request::InsertIf {
        point,
        at,
        kind,
        conditions,
    })
}

/// `z`
fn read_remove(point: Point, text: &[u8]) -> Result<Request, RequestFault>
    ensures { result ≡ remove_reading point text.now }
{
    let (at, kind) = two_numbers(text)?;
    Ok(Request::Remove { point, at, kind })
}

/// `H`
fn read_select(text: &[u8]) -> Result<Request, RequestFault>
    ensures { result ≡ select_reading text.now }
{
    let thread = thread(text)?;
    Ok(Request::Select(thread))
}

/// `T`
fn read_alive(text: &[u8]) -> Result<Request, RequestFault>
    ensures { result ≡ alive_reading text.now }
{
    let thread = thread(text)?;
    Ok(Request::IsAlive(thread))
}

/// `qXfer:features:read`
fn read_description(text: &[u8]) -> Result<Request, RequestFault>
    ensures { result ≡ description_reading text.now }
{
    let (offset, count) = extent("target.xml:", text)?;
    Ok(Request::Description { offset, count })
}

/// `qXfer:memory-map:read`
fn read_memory_map(text: &[u8]) -> Result<Request, RequestFault>
    ensures { result ≡ memory_map_reading text.now }
{
    let (offset, count) = extent(":", text)?;
    Ok(Request::MemoryMap { offset, count })
}

/// The offset and the count of bytes behind the one annex that there is, and its `:`.
fn extent(annex: &str, text: &[u8]) -> Result<(u32, u32), RequestFault>
    ensures { result ≡ extent_in annex.now text.now }
{
    match behind(text, annex) {
        Some(rest) => two_numbers(rest),
        None => Err(RequestFault::Malformed),
    }
}

/// `qRcmd`
fn read_line(alloc: Global, text: &[u8]) -> Result<Request, RequestFault>
    ensures { Reads (command_reading text.now) result }
{
    let bytes = bytes(alloc, text)?;
    Ok(Request::Command(bytes))
}

/// `vKill`
fn read_kill(text: &[u8]) -> Result<Request, RequestFault>
    ensures { result ≡ kill_reading text.now }
{
    let number = number(text)?;
    Ok(Request::KillProcess(number))
}
