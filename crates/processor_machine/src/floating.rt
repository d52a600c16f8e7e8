// The exceptions of floating instructions (paper 02, W4): the code of each, and the flag that it sets.
ghost use Rattle.std.specs.Prelude.{◌≡◌, ◌<◌};
ghost use Rattle.word.specs.Bit.{with_bit};
ghost use Rattle.processor_machine.specs.FloatCause.{float_code_of, float_flag_of};

// Why a floating instruction raised an exception.
#[derive(Clone, Copy)]
pub enum FloatCause {
    Reserved,
    Invalid,
    ZeroDivide,
    Overflow,
}

impl FloatCause {
    pub fn code(self) -> u32
        ensures { (result ≡ float_code_of self) × (result < 65536) }
    {
        match self {
            FloatCause::Reserved => 0xFF60,
            FloatCause::Invalid => 0xFF70,
            FloatCause::ZeroDivide => 0xFF68,
            FloatCause::Overflow => 0xFF64,
        }
    }

    // PSW with the cause's flag set: FRO, FIV, FZD or FOV, in bits 9 to 6.
    pub fn flagged(self, psw: u32) -> u32
        ensures { result ≡ with_bit (float_flag_of self) psw }
    {
        match self {
            FloatCause::Reserved => psw - psw / 512 % 2 * 512 + 512,
            FloatCause::Invalid => psw - psw / 256 % 2 * 256 + 256,
            FloatCause::ZeroDivide => psw - psw / 128 % 2 * 128 + 128,
            FloatCause::Overflow => psw - psw / 64 % 2 * 64 + 64,
        }
    }
}
