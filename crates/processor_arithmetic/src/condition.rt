// The sixteen conditions of Bcond and SETF. They stay numbers, as an instruction, the C interface and the table have them.
ghost use Rattle.std.specs.Prelude.{◌≡◌, ℕ, ◌/◌, ◌%◌, ◌^◌, ◌<◌, ◌==◌};
ghost use Rattle.processor_arithmetic.specs.Condition.{condition_of};

// Bit n of row c: whether condition c holds where CY, OV, S and Z are the bits 3 to 0 of n.
fn row(c: u32) -> u32
    requires { c < 16 }
    ensures { (n : ℕ) → n < 16 → (result / 2 ^ n % 2 == 1) ≡ condition_of c n }
{
    match c {
        0 => 0xf0f0,
        1 => 0xff00,
        2 => 0xaaaa,
        3 => 0xffaa,
        4 => 0xcccc,
        5 => 0xffff,
        6 => 0x3c3c,
        7 => 0xbebe,
        8 => 0xf0f,
        9 => 0xff,
        10 => 0x5555,
        11 => 0x55,
        12 => 0x3333,
        13 => 0x0,
        14 => 0xc3c3,
        _ => 0x4141,
    }
}

pub fn holds(cond: u32, psw: u32) -> bool
    ensures { result ≡ condition_of cond psw }
{
    let n = psw % 16;
    (row(cond % 16) >> n) % 2 == 1
}
