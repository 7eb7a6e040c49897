// Registers that differ in the fields named. Every field is named each time: a copy of the whole with one field changed is compiled to
// words of packed bytes, with shifts at every use.
ghost use Rattle.std.specs.Prelude.{◌≡◌, ◌+◌, ◌%◌};
ghost use Rattle.registers.specs.Fields.{set_a, set_x, set_y, set_sp, set_pc, set_nz, set_c, set_vh, set_page, set_rest, set_stop};

use crate::Registers;

impl Registers {
    // A anew; no flag changes. So with X, Y and SP.
    pub fn with_a(self, a: u8) -> Registers
        ensures { result ≡ set_a a self }
    {
        Registers {
            a,
            x: self.x,
            y: self.y,
            sp: self.sp,
            pc: self.pc,
            n: self.n,
            z: self.z,
            v: self.v,
            h: self.h,
            c: self.c,
            page: self.page,
            rest: self.rest,
            stop: self.stop,
        }
    }

    // X anew
    pub fn with_x(self, x: u8) -> Registers
        ensures { result ≡ set_x x self }
    {
        Registers {
            a: self.a,
            x,
            y: self.y,
            sp: self.sp,
            pc: self.pc,
            n: self.n,
            z: self.z,
            v: self.v,
            h: self.h,
            c: self.c,
            page: self.page,
            rest: self.rest,
            stop: self.stop,
        }
    }

    // Y anew
    pub fn with_y(self, y: u8) -> Registers
        ensures { result ≡ set_y y self }
    {
        Registers {
            a: self.a,
            x: self.x,
            y,
            sp: self.sp,
            pc: self.pc,
            n: self.n,
            z: self.z,
            v: self.v,
            h: self.h,
            c: self.c,
            page: self.page,
            rest: self.rest,
            stop: self.stop,
        }
    }

    // SP anew
    pub fn with_sp(self, sp: u8) -> Registers
        ensures { result ≡ set_sp sp self }
    {
        Registers {
            a: self.a,
            x: self.x,
            y: self.y,
            sp,
            pc: self.pc,
            n: self.n,
            z: self.z,
            v: self.v,
            h: self.h,
            c: self.c,
            page: self.page,
            rest: self.rest,
            stop: self.stop,
        }
    }

    // PC anew
    pub fn jump(self, pc: u16) -> Registers
        ensures { result ≡ set_pc pc self }
    {
        Registers {
            a: self.a,
            x: self.x,
            y: self.y,
            sp: self.sp,
            pc,
            n: self.n,
            z: self.z,
            v: self.v,
            h: self.h,
            c: self.c,
            page: self.page,
            rest: self.rest,
            stop: self.stop,
        }
    }

    // the bytes that N and Z are told by
    pub fn with_nz(self, n: u8, z: u8) -> Registers
        ensures { result ≡ set_nz n z self }
    {
        Registers {
            a: self.a,
            x: self.x,
            y: self.y,
            sp: self.sp,
            pc: self.pc,
            n,
            z,
            v: self.v,
            h: self.h,
            c: self.c,
            page: self.page,
            rest: self.rest,
            stop: self.stop,
        }
    }

    // the byte that C is told by
    pub fn with_c(self, c: u8) -> Registers
        ensures { result ≡ set_c c self }
    {
        Registers {
            a: self.a,
            x: self.x,
            y: self.y,
            sp: self.sp,
            pc: self.pc,
            n: self.n,
            z: self.z,
            v: self.v,
            h: self.h,
            c,
            page: self.page,
            rest: self.rest,
            stop: self.stop,
        }
    }

    // the bytes that V and H are told by
    pub fn with_vh(self, v: u8, h: u8) -> Registers
        ensures { result ≡ set_vh v h self }
    {
        Registers {
            a: self.a,
            x: self.x,
            y: self.y,
            sp: self.sp,
            pc: self.pc,
            n: self.n,
            z: self.z,
            v,
            h,
            c: self.c,
            page: self.page,
            rest: self.rest,
            stop: self.stop,
        }
    }

    // the direct page
    pub fn with_page(self, page: u16) -> Registers
        ensures { result ≡ set_page page self }
    {
        Registers {
            a: self.a,
            x: self.x,
            y: self.y,
            sp: self.sp,
            pc: self.pc,
            n: self.n,
            z: self.z,
            v: self.v,
            h: self.h,
            c: self.c,
            page,
            rest: self.rest,
            stop: self.stop,
        }
    }

    // B and I
    pub fn with_rest(self, rest: u8) -> Registers
        ensures { result ≡ set_rest rest self }
    {
        Registers {
            a: self.a,
            x: self.x,
            y: self.y,
            sp: self.sp,
            pc: self.pc,
            n: self.n,
            z: self.z,
            v: self.v,
            h: self.h,
            c: self.c,
            page: self.page,
            rest,
            stop: self.stop,
        }
    }

    // the number of the state
    pub fn with_stop(self, stop: u8) -> Registers
        ensures { result ≡ set_stop stop self }
    {
        Registers {
            a: self.a,
            x: self.x,
            y: self.y,
            sp: self.sp,
            pc: self.pc,
            n: self.n,
            z: self.z,
            v: self.v,
            h: self.h,
            c: self.c,
            page: self.page,
            rest: self.rest,
            stop,
        }
    }

    // PC one byte further.
    pub fn past(self) -> Registers
        ensures { result ≡ set_pc ((self.pc + 1) % 65536) self }
    {
        self.jump(std::num::wrapping_add_u16(self.pc, 1))
    }
}
