//! The target that gdb is told of, `target.xml`: its architecture and its registers, in the order that numbers
//! them; and the map of its memory. Source: gdb manual, "Target Descriptions", "S/390 and System z Features",
//! "Memory Map Format"; gdb's s390-core32.xml, s390-acr.xml and s390-fpr.xml.
ghost use Rattle.std.specs.Prelude.{◌≡◌, ◌++◌, OnOk, IfOk};
ghost use Rattle.s360_packet.specs.Target.{description, memory_map, part_of, register_value};

use s360_text::Text;
use std::alloc::AllocError;

/// How many registers the machine has for gdb, each of a word: the two words of the PSW, and the general registers.
pub const REGISTERS: usize = 18;

/// The target's description. gdb wants the access and floating-point registers too, which this machine lacks.
const DESCRIPTION: &str = "\
    <?xml version='1.0'?>\
    <!DOCTYPE target SYSTEM 'gdb-target.dtd'>\
    <target>\
    <architecture>s390:31-bit</architecture>\
    <feature name='org.gnu.gdb.s390.core'>\
    <reg name='pswm' bitsize='32' type='uint32' group='psw'/>\
    <reg name='pswa' bitsize='32' type='uint32' group='psw'/>\
    <reg name='r0' bitsize='32' type='uint32' group='general'/>\
    <reg name='r1' bitsize='32' type='uint32' group='general'/>\
    <reg name='r2' bitsize='32' type='uint32' group='general'/>\
    <reg name='r3' bitsize='32' type='uint32' group='general'/>\
    <reg name='r4' bitsize='32' type='uint32' group='general'/>\
    <reg name='r5' bitsize='32' type='uint32' group='general'/>\
    <reg name='r6' bitsize='32' type='uint32' group='general'/>\
    <reg name='r7' bitsize='32' type='uint32' group='general'/>\
    <reg name='r8' bitsize='32' type='uint32' group='general'/>\
    <reg name='r9' bitsize='32' type='uint32' group='general'/>\
    <reg name='r10' bitsize='32' type='uint32' group='general'/>\
    <reg name='r11' bitsize='32' type='uint32' group='general'/>\
    <reg name='r12' bitsize='32' type='uint32' group='general'/>\
    <reg name='r13' bitsize='32' type='uint32' group='general'/>\
    <reg name='r14' bitsize='32' type='uint32' group='general'/>\
    <reg name='r15' bitsize='32' type='uint32' group='general'/>\
    </feature>\
    <feature name='org.gnu.gdb.s390.acr'>\
    <reg name='acr0' bitsize='32' type='uint32' group='access'/>\
    <reg name='acr1' bitsize='32' type='uint32' group='access'/>\
    <reg name='acr2' bitsize='32' type='uint32' group='access'/>\
    <reg name='acr3' bitsize='32' type='uint32' group='access'/>\
    <reg name='acr4' bitsize='32' type='uint32' group='access'/>\
    <reg name='acr5' bitsize='32' type='uint32' group='access'/>\
    <reg name='acr6' bitsize='32' type='uint32' group='access'/>\
    <reg name='acr7' bitsize='32' type='uint32' group='access'/>\
    <reg name='acr8' bitsize='32' type='uint32' group='access'/>\
    <reg name='acr9' bitsize='32' type='uint32' group='access'/>\
    <reg name='acr10' bitsize='32' type='uint32' group='access'/>\
    <reg name='acr11' bitsize='32' type='uint32' group='access'/>\
    <reg name='acr12' bitsize='32' type='uint32' group='access'/>\
    <reg name='acr13' bitsize='32' type='uint32' group='access'/>\
    <reg name='acr14' bitsize='32' type='uint32' group='access'/>\
    <reg name='acr15' bitsize='32' type='uint32' group='access'/>\
    </feature>\
    <feature name='org.gnu.gdb.s390.fpr'>\
    <reg name='fpc' bitsize='32' type='uint32' group='float'/>\
    <reg name='f0' bitsize='64' type='ieee_double' group='float'/>\
    <reg name='f1' bitsize='64' type='ieee_double' group='float'/>\
    <reg name='f2' bitsize='64' type='ieee_double' group='float'/>\
    <reg name='f3' bitsize='64' type='ieee_double' group='float'/>\
    <reg name='f4' bitsize='64' type='ieee_double' group='float'/>\
    <reg name='f5' bitsize='64' type='ieee_double' group='float'/>\
    <reg name='f6' bitsize='64' type='ieee_double' group='float'/>\
    <reg name='f7' bitsize='64' type='ieee_double' group='float'/>\
    <reg name='f8' bitsize='64' type='ieee_double' group='float'/>\
    <reg name='f9' bitsize='64' type='ieee_double' group='float'/>\
    <reg name='f10' bitsize='64' type='ieee_double' group='float'/>\
    <reg name='f11' bitsize='64' type='ieee_double' group='float'/>\
    <reg name='f12' bitsize='64' type='ieee_double' group='float'/>\
    <reg name='f13' bitsize='64' type='ieee_double' group='float'/>\
    <reg name='f14' bitsize='64' type='ieee_double' group='float'/>\
    <reg name='f15' bitsize='64' type='ieee_double' group='float'/>\
    </feature>\
    </target>\
";

/// The text of `target.xml`.
pub fn description() -> &'static str
    ensures { result.now ≡ description }
{
    DESCRIPTION
}

/// What `p` answers of a register.
#[derive(Clone, Copy)]
pub enum RegisterValue {
    /// The word in it.
    Word(u32),
    /// The machine lacks it; it would have a word.
    NoWord,
    /// The machine lacks it; it would have a doubleword.
    NoDoubleword,
}

/// The value of the register with this number in the target's description, of a machine whose registers have
/// these words: the two of the PSW, then the general registers.
pub fn register_value(words: &[u32; REGISTERS], number: u32) -> Option<RegisterValue>
    ensures { result ≡ register_value words.now number }
{
    match number {
        0..=17 => Some(RegisterValue::Word(words[number as usize])),
        18..=34 => Some(RegisterValue::NoWord),
        35..=50 => Some(RegisterValue::NoDoubleword),
        _ => None,
    }
}

/// Adds a part of the memory map, of storage that has `size` bytes.
pub(crate) fn push_memory_map(
    text: &mut Text,
    size: u32,
    offset: u32,
    count: u32,
) -> Result<(), AllocError>
    ensures { OnOk result (text.new ≡ text.old ++ part_of (memory_map size) offset count) }
{
    let map = format!(in text.alloc();
        "<memory-map><memory type='ram' start='0x0' length='0x{size:x}'/></memory-map>"
    )?;
    push_part(text, map.as_bytes(), offset, count)
}

/// Adds a part of a whole text, so many bytes from an offset on, behind `m`, or behind `l` if it is the last.
pub(crate) fn push_part(
    text: &mut Text,
    whole: &[u8],
    offset: u32,
    count: u32,
) -> Result<(), AllocError>
    ensures { OnOk result (text.new ≡ text.old ++ part_of whole.now offset count) }
{
    let rest = &whole[whole.len().min(offset as usize)..];
    let count = count as usize;
    if rest.len() <= count {
        text.push_text("l")?;
        text.push_bytes(rest)
    } else {
        text.push_text("m")?;
        text.push_bytes(&rest[..count])
    }
}
