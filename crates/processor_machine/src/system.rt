// The system registers: EIPC, EIPSW, FEPC, FEPSW, ECR, 25, 29 and 31 are the caller's, in this order; PSW goes by
// value.
ghost use Rattle.std.specs.Prelude.{◌≡◌};
ghost use Rattle.processor_machine.specs.System.{psw_bits_of, system_of, written_of, status_of};

// The bits of a PSW format.
#[tactic(auto, unfolding(crate::specs::System::psw_bits_of))]
pub fn psw_bits(v: u32) -> u32
    ensures { result ≡ psw_bits_of v }
{
    v & 0x000FF3FF
}

// What STSR reads.
#[tactic(auto, unfolding(crate::specs::System::system_of))]
pub fn read(sys: &[u32; 8], psw: u32, id: u32) -> u32
    ensures { result ≡ system_of sys.now psw id }
{
    match id {
        0 => sys[0],
        1 => sys[1],
        2 => sys[2],
        3 => sys[3],
        4 => sys[4],
        5 => psw,
        6 => 0x5346,
        7 => 0xE0,
        25 => sys[5],
        29 => sys[6],
        30 => 4,
        31 => sys[7],
        _ => 0,
    }
}

// What LDSR writes: the caller's registers change, and PSW afterwards is the answer.
#[tactic(auto, unfolding(crate::specs::System::written_of))]
pub fn write(sys: &mut [u32; 8], psw: u32, id: u32, v: u32) -> u32
    ensures { status_of sys.new result ≡ written_of sys.old psw id v }
{
    match id {
        0 => sys[0] = v - v % 2,
        1 => sys[1] = psw_bits(v),
        2 => sys[2] = v - v % 2,
        3 => sys[3] = psw_bits(v),
        5 => return psw_bits(v),
        25 => sys[5] = v - v % 2,
        29 => sys[6] = v,
        31 => sys[7] = processor_arithmetic::product::magnitude(v),
        _ => {}
    }
    psw
}
