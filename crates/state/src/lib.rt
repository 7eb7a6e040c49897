// The register record as bytes: as seven, A X Y SP PC-low PC-high PSW, which hold no state, and as eight, with the number of the state
// last. And a number as four bytes, as the programs take a budget. The bytes are slices and no arrays: most callers lend a part of a
// packet or of a state record, and a part is a slice.
#![tactic(auto)]

ghost use Rattle.std.specs.Prelude.{◌+◌, ◌*◌, ◌≡◌, length};
ghost use Rattle.state.specs.Registers.{registers_of, bytes_of, is_whole, whole_of, whole_in, whole_bytes_of, four_bytes};

use processor::Processor;
use psw::ProgramStatusWord;
use refusals::Refusal;
use waking::State;

// The record that seven bytes hold: awake.
pub fn registers(bytes: &[u8]) -> Processor
    requires { length bytes.now ≡ 7 }
    ensures { result ≡ registers_of bytes.now }
{
    Processor {
        a: bytes[0],
        x: bytes[1],
        y: bytes[2],
        sp: bytes[3],
        pc: u16::from_le_bytes([bytes[4], bytes[5]]),
        psw: ProgramStatusWord::from_byte(bytes[6]),
        state: State::Awake,
    }
}

// The record as seven bytes.
fn bytes_of(cpu: Processor) -> [u8; 7]
    ensures { result ≡ bytes_of cpu }
{
    let [low, high] = cpu.pc.to_le_bytes();
    [cpu.a, cpu.x, cpu.y, cpu.sp, low, high, cpu.psw.to_byte()]
}

// Stores the record in seven bytes.
pub fn set_registers(bytes: &mut [u8], cpu: Processor)
    requires { length bytes.old ≡ 7 }
    ensures { bytes.new ≡ bytes_of cpu }
{
    bytes.copy_from_slice(&bytes_of(cpu));
}

// Whether bytes are a whole record: eight of them, with a state's number last.
pub fn is_whole(bytes: &[u8]) -> bool
    ensures { result ≡ is_whole bytes.now }
{
    bytes.len() == 8 && waking::is_state(bytes[7])
}

// The record that eight bytes hold.
pub fn whole(bytes: &[u8]) -> Processor
    requires { length bytes.now ≡ 8 }
    ensures { result ≡ whole_of bytes.now }
{
    registers(&bytes[..7]).with_state(waking::state_of(bytes[7]))
}

// The record that bytes hold; what is no whole record is refused.
pub fn whole_in(bytes: &[u8]) -> Result<Processor, Refusal>
    ensures { result ≡ whole_in bytes.now }
{
    if !is_whole(bytes) {
        return Err(Refusal::Form);
    }
    Ok(whole(bytes))
}

// Stores the record in eight bytes.
pub fn set_whole(bytes: &mut [u8], cpu: Processor)
    requires { length bytes.old ≡ 8 }
    ensures { bytes.new ≡ whole_bytes_of cpu }
{
    set_registers(&mut bytes[..7], cpu);
    bytes[7] = u8::from(cpu.state);
}

// The number that four bytes hold, low first.
pub fn number(b0: u8, b1: u8, b2: u8, b3: u8) -> u32
    ensures { result ≡ b0 + 256 * b1 + 65536 * b2 + 16777216 * b3 }
{
    u32::from_le_bytes([b0, b1, b2, b3])
}

// Stores a number in four bytes, low first.
pub fn set_number(bytes: &mut [u8], n: u32)
    requires { length bytes.old ≡ 4 }
    ensures { bytes.new ≡ four_bytes n }
{
    bytes.copy_from_slice(&n.to_le_bytes());
}
