// A damaged saved state in form 2: what can be kept of it, with the rest at reset, written as a valid file.
#![tactic(auto)]

mod compare;
mod entries;
mod keep;
mod listed;
mod replace;

ghost use Rattle.std.specs.Prelude.{◌≡◌};
ghost use Rattle.saved_salvage.specs.Salvage.{salvage_of, salvaged_output_of};

use refusal::Refusal;
use saved_kinds::lengths;
use saved_layout::{Form, contents};

// Which bodies are kept. An absent body counts as kept.
#[derive(Clone, Copy)]
pub struct Kept {
    pub processor: bool,
    pub drawing: bool,
    pub wram: bool,
    pub vram: bool,
    pub pak: bool,
    pub hardware: bool,
}

// The kinds that were replaced, ascending: how many, and 0 after the last.
#[derive(Clone, Copy)]
pub struct ListedKinds {
    pub count: u32,
    pub kinds: [u32; 6],
}

// Whether a salvage was refused, the kinds replaced, and whether anything else before the first body differs from the
// file.
#[derive(Clone, Copy)]
pub struct Salvaged {
    pub verdict: Result<(), Refusal>,
    pub list: ListedKinds,
    pub differ: bool,
}

// A valid file in form 2 with every recoverable body of a file, into an output buffer (paper 02: "room") as long as
// the file.
pub fn salvage_state(file: &[u8], output: &mut [u8]) -> Salvaged
    ensures reported { result ≡ salvage_of file.now output.old }
    ensures output { output.new ≡ salvaged_output_of file.now output.old }
{
    if output.len() != file.len() {
        return Salvaged {
            verdict: Err(Refusal::FileLength),
            list: listed::none(),
            differ: false,
        };
    }
    if !lengths::fits(Form::Two, file.len()) {
        return Salvaged {
            verdict: Err(Refusal::NoLayout),
            list: listed::none(),
            differ: false,
        };
    }
    let pak = lengths::pak_length(Form::Two, file.len());
    let kept = keep::kept(file, pak);
    replace::put_bodies(file, output, pak, kept);
    contents::put(Form::Two, output, pak);
    let differ = compare::contents_differ(file, output, pak, kept);
    Salvaged {
        verdict: Ok(()),
        list: listed::replaced(kept),
        differ,
    }
}
