// The form of a file, and the pak RAM's length, which follows from the file's.
ghost use Rattle.std.specs.Prelude.{◌≡◌};
ghost use Rattle.saved_kinds.specs.Fits.{form_of, pak_length_of, fits_ok};

use saved_layout::{Form, places};

// The form: 2 where the first halfword is 0, else 1.
pub fn form_of(file: &[u8]) -> Form
    ensures { result ≡ form_of file.now }
{
    if file.len() == 0 {
        return Form::Two;
    }
    if file[0] != 0 {
        return Form::One;
    }
    if file.len() == 1 {
        return Form::Two;
    }
    if file[1] != 0 {
        return Form::One;
    }
    Form::Two
}

// The only length of pak RAM that a file of `length` bytes can have in a form.
pub fn pak_length(form: Form, length: usize) -> usize
    ensures { result ≡ pak_length_of form length }
{
    let besides = places::file_length(form, 1) - 1;
    if length <= besides {
        return 0;
    }
    length - besides
}

// Whether some length of pak RAM makes files of `length` bytes in a form.
pub fn fits(form: Form, length: usize) -> bool
    ensures { result ≡ fits_ok form length }
{
    let pak = pak_length(form, length);
    if !bus::refusals::pak_ok(pak) {
        return false;
    }
    places::file_length(form, pak) == length
}
