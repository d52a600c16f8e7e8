// The general registers, by the five bits of a number: register 0 reads 0, since a write to it is dropped.
ghost use Rattle.std.specs.Prelude.{◌≡◌, ◌%◌, get_or};
ghost use Rattle.processor_machine.specs.State.{put_of};

pub fn get(regs: &[u32; 32], n: u32) -> u32
    ensures { result ≡ get_or regs.now (n % 32) 0 }
{
    regs[(n % 32) as usize]
}

#[tactic(auto, unfolding(crate::specs::State::put_of))]
pub fn put(regs: &mut [u32; 32], n: u32, value: u32)
    ensures { regs.new ≡ put_of regs.old n value }
{
    let i = (n % 32) as usize;
    if i != 0 {
        regs[i] = value;
    }
}
