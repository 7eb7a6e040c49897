// The instruction table: a cell of ten bytes for each opcode, eight cells a line. A cell is the name, with blanks behind a shorter
// one, a blank, a letter for each operand (see `mode`), and a blank.
ghost use Rattle.std.specs.Prelude.{◌≡◌};
ghost use Rattle.opcode_data.specs.Cells.{mode_of, operands};

use crate::{AddressMode, Modes};

pub const CELLS: [u8; 2560] = *b"\
    NOP       TCALL 4   SET1  d3  BBS   d3r OR    Ad  OR    Aa  OR    A(  OR    A[  \
    OR    A#  OR    dd  OR1   Cm  ASL   d   ASL   a   PUSH  P   TSET1 a   BRK       \
    BPL   r   TCALL 4   CLR1  d3  BBC   d3r OR    Ae  OR    Ab  OR    Ac  OR    A]  \
    OR    d#  OR    ()  DECW  d   ASL   e   ASL   A   DEC   X   CMP   Xa  JMP   @   \
    CLRP      TCALL 4   SET1  d3  BBS   d3r AND   Ad  AND   Aa  AND   A(  AND   A[  \
    AND   A#  AND   dd  OR1   Cn  ROL   d   ROL   a   PUSH  A   CBNE  dr  BRA   r   \
    BMI   r   TCALL 4   CLR1  d3  BBC   d3r AND   Ae  AND   Ab  AND   Ac  AND   A]  \
    AND   d#  AND   ()  INCW  d   ROL   e   ROL   A   INC   X   CMP   Xd  CALL  a   \
    SETP      TCALL 4   SET1  d3  BBS   d3r EOR   Ad  EOR   Aa  EOR   A(  EOR   A[  \
    EOR   A#  EOR   dd  AND1  Cm  LSR   d   LSR   a   PUSH  X   TCLR1 a   PCALL #   \
    BVC   r   TCALL 4   CLR1  d3  BBC   d3r EOR   Ae  EOR   Ab  EOR   Ac  EOR   A]  \
    EOR   d#  EOR   ()  CMPW  Wd  LSR   e   LSR   A   MOV   XA  CMP   Ya  JMP   a   \
    CLRC      TCALL 4   SET1  d3  BBS   d3r CMP   Ad  CMP   Aa  CMP   A(  CMP   A[  \
    CMP   A#  CMP   dd  AND1  Cn  ROR   d   ROR   a   PUSH  Y   DBNZ  dr  RET       \
    BVS   r   TCALL 4   CLR1  d3  BBC   d3r CMP   Ae  CMP   Ab  CMP   Ac  CMP   A]  \
    CMP   d#  CMP   ()  ADDW  Wd  ROR   e   ROR   A   MOV   AX  CMP   Yd  RETI      \
    SETC      TCALL 4   SET1  d3  BBS   d3r ADC   Ad  ADC   Aa  ADC   A(  ADC   A[  \
    ADC   A#  ADC   dd  EOR1  Cm  DEC   d   DEC   a   MOV   Y#  POP   P   MOV   d#  \
    BCC   r   TCALL 4   CLR1  d3  BBC   d3r ADC   Ae  ADC   Ab  ADC   Ac  ADC   A]  \
    ADC   d#  ADC   ()  SUBW  Wd  DEC   e   DEC   A   MOV   XS  DIV   WX  XCN   A   \
    EI        TCALL 4   SET1  d3  BBS   d3r SBC   Ad  SBC   Aa  SBC   A(  SBC   A[  \
    SBC   A#  SBC   dd  MOV1  Cm  INC   d   INC   a   CMP   Y#  POP   A   MOV   +A  \
    BCS   r   TCALL 4   CLR1  d3  BBC   d3r SBC   Ae  SBC   Ab  SBC   Ac  SBC   A]  \
    SBC   d#  SBC   ()  MOVW  Wd  INC   e   INC   A   MOV   SX  DAS   A   MOV   A+  \
    DI        TCALL 4   SET1  d3  BBS   d3r MOV   dA  MOV   aA  MOV   (A  MOV   [A  \
    CMP   X#  MOV   aX  MOV1  mC  MOV   dY  MOV   aY  MOV   X#  POP   X   MUL   W   \
    BNE   r   TCALL 4   CLR1  d3  BBC   d3r MOV   eA  MOV   bA  MOV   cA  MOV   ]A  \
    MOV   dX  MOV   fX  MOVW  dW  MOV   eY  DEC   Y   MOV   AY  CBNE  er  DAA   A   \
    CLRV      TCALL 4   SET1  d3  BBS   d3r MOV   Ad  MOV   Aa  MOV   A(  MOV   A[  \
    MOV   A#  MOV   Xa  NOT1  m   MOV   Yd  MOV   Ya  NOTC      POP   Y   SLEEP     \
    BEQ   r   TCALL 4   CLR1  d3  BBC   d3r MOV   Ae  MOV   Ab  MOV   Ac  MOV   A]  \
    MOV   Xd  MOV   Xf  MOV   dd  MOV   Ye  INC   Y   MOV   YA  DBNZ  Yr  STOP      ";

// The operands that the letters of a cell stand for.
pub fn operands(letters: [u8; 3], opcode: u8) -> Modes
    ensures { result ≡ operands letters opcode }
{
    Modes {
        three: letters.map(|letter| mode(letter, opcode)),
        count: letters.iter().filter(|letter| **letter != b' ').count() as u8,
    }
}

// The operand that a letter stands for. A blank, which stands where there is no operand, counts as A.
fn mode(letter: u8, opcode: u8) -> AddressMode
    ensures { result ≡ mode_of letter opcode }
{
    match letter {
        b'X' => AddressMode::X,
        b'+' => AddressMode::XInc,
        b'Y' => AddressMode::Y,
        b'W' => AddressMode::Ya,
        b'#' => AddressMode::Imm,
        b'd' => AddressMode::D,
        b'e' => AddressMode::Dx,
        b'f' => AddressMode::Dy,
        b'(' => AddressMode::Ix,
        b')' => AddressMode::Iy,
        b'[' => AddressMode::Idx,
        b']' => AddressMode::Idy,
        b'a' => AddressMode::Abs,
        b'b' => AddressMode::AbsX,
        b'c' => AddressMode::AbsY,
        b'@' => AddressMode::Iax,
        b'r' => AddressMode::Rel,
        b'm' => AddressMode::Mb,
        b'n' => AddressMode::Nmb,
        b'C' => AddressMode::C,
        b'S' => AddressMode::Sp,
        b'P' => AddressMode::Psw,
        b'3' => AddressMode::Encoded(opcode / 32),
        b'4' => AddressMode::Encoded(opcode / 16),
        _ => AddressMode::A,
    }
}
