// How many bytes a load or a store moves.
ghost use Rattle.std.specs.Prelude.{◌≡◌};
ghost use Rattle.word.specs.Width.{bytes_of, Decodes};

#[derive(Clone, Copy, Debug, PartialEq, Eq)]
pub enum Width {
    Byte,
    Half,
    Word,
}

// A number of bytes that no access moves.
#[derive(Clone, Copy, Debug, PartialEq, Eq)]
pub struct NoWidth(pub u32);

impl Width {
    pub fn bytes(self) -> u32
        ensures { result ≡ bytes_of self }
    {
        match self {
            Width::Byte => 1,
            Width::Half => 2,
            Width::Word => 4,
        }
    }
}

impl TryFrom<u32> for Width {
    type Error = NoWidth;

    ghost try_from_gives = { Decodes };

    fn try_from(bytes: u32) -> Result<Width, NoWidth> {
        match bytes {
            1 => Ok(Width::Byte),
            2 => Ok(Width::Half),
            4 => Ok(Width::Word),
            _ => Err(NoWidth(bytes)),
        }
    }
}
