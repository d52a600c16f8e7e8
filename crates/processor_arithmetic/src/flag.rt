// The flags of PSW: CY, OV, S and Z in bits 3 to 0, ID in bit 12. `pub` for the crates above alone.
ghost use Rattle.std.specs.Prelude.{◌≡◌, ◌<◌};
ghost use Rattle.processor_arithmetic.specs.Flag.{bit_of, flags_of, keep_carry_of, set_id_of, clear_id_of, regular_of};
ghost use Rattle.processor_arithmetic.specs.Flag.{duplexed_of, ae_flag, ep_flag, np_flag};
ghost use Rattle.word.specs.Bit.{with_bit, without_bit};

// 1 for true and 0 for false.
pub fn bit(b: bool) -> u32
    ensures { (result ≡ bit_of b) × (result < 2) }
{
    if b { 1 } else { 0 }
}

// PSW with all four flags of a result.
pub fn flags(psw: u32, cy: u32, ov: u32, value: u32) -> u32
    requires { (cy < 2) × (ov < 2) }
    ensures { result ≡ flags_of psw cy ov value }
{
    psw / 16 * 16 + cy * 8 + ov * 4 + value / 2147483648 * 2 + bit(value == 0)
}

// PSW with OV, S and Z of a result, and CY as it was.
pub fn keep_carry(psw: u32, ov: u32, value: u32) -> u32
    requires { ov < 2 }
    ensures { result ≡ keep_carry_of psw ov value }
{
    psw / 8 * 8 + ov * 4 + value / 2147483648 * 2 + bit(value == 0)
}

// SEI.
pub fn set_id(psw: u32) -> u32
    ensures { result ≡ set_id_of psw }
{
    psw - psw / 4096 % 2 * 4096 + 4096
}

// CLI.
pub fn clear_id(psw: u32) -> u32
    ensures { result ≡ clear_id_of psw }
{
    psw - psw / 4096 % 2 * 4096
}

// EP set, NP set, AE cleared.
fn set_ep(psw: u32) -> u32
    ensures { result ≡ with_bit ep_flag psw }
{
    psw - psw / 16384 % 2 * 16384 + 16384
}

fn set_np(psw: u32) -> u32
    ensures { result ≡ with_bit np_flag psw }
{
    psw - psw / 32768 % 2 * 32768 + 32768
}

fn clear_ae(psw: u32) -> u32
    ensures { result ≡ without_bit ae_flag psw }
{
    psw - psw / 8192 % 2 * 8192
}

// PSW as a regular exception enters: EP and ID set, AE cleared.
pub fn regular(psw: u32) -> u32
    ensures { result ≡ regular_of psw }
{
    clear_ae(set_id(set_ep(psw)))
}

// PSW as a duplexed exception enters: NP and ID set, AE cleared.
pub fn duplexed(psw: u32) -> u32
    ensures { result ≡ duplexed_of psw }
{
    clear_ae(set_id(set_np(psw)))
}
