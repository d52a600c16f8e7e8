// The load of an instruction, from its halfwords: only LD and IN load. It does not go through the decoder, whose
// code would then stand in a step twice; that the decoder says the same is proved.
ghost use Rattle.std.specs.Prelude.{◌≡◌, ℕ, List};
ghost use Rattle.bus.specs.Memory.{Memory};
ghost use Rattle.processor_decode.specs.Opcode.{decode_of};
ghost use Rattle.processor_machine.specs.State.{state_of};
ghost use Rattle.processor_machine.specs.declared.Mode.{Mode};
ghost use Rattle.processor_undefined.specs.Reads.{decoded_load_of};

use processor_machine::register::get;
use word::Width;

// Its mask: LD.B, LD.H, LD.W and IN.B, IN.H, IN.W at the effective address.
pub fn load(first: u16, second: u16, regs: &[u32; 32]) -> u32
    ensures { (sys : List ℕ) (pc psw : ℕ) (mode : Mode) (m : Memory)
        → result ≡ decoded_load_of (decode_of first second) (state_of regs.now sys pc psw mode) m }
{
    let f = first as u32;
    let base = get(regs, f % 32);
    let disp = word::extend(32768, second as u32);
    let address = std::num::wrapping_add_u32(base, disp);
    match f / 1024 {
        48 => bus_defined::undefined(Width::Byte, address),
        49 => bus_defined::undefined(Width::Half, address),
        51 => bus_defined::undefined(Width::Word, address),
        56 => bus_defined::undefined(Width::Byte, address),
        57 => bus_defined::undefined(Width::Half, address),
        59 => bus_defined::undefined(Width::Word, address),
        _ => 0,
    }
}
