// Bit 1 of a halfword: Z-Stat among the control bits, the timer's line among the lines.
ghost use Rattle.std.specs.Prelude.{◌≡◌};
ghost use Rattle.word.specs.Bit.{without_bit, with_bit};

pub fn set_second(x: u16) -> u16
    ensures { result ≡ with_bit 1 x }
{
    x - x / 2 % 2 * 2 + 2
}

pub fn clear_second(x: u16) -> u16
    ensures { result ≡ without_bit 1 x }
{
    x - x / 2 % 2 * 2
}
