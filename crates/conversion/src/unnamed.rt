// The unnamed bytes of an SPC file, which stand in three stretches: storing the default of each, and looking whether it is there.
ghost use Rattle.std.specs.Prelude.{◌≡◌};
ghost use Rattle.conversion.specs.Unnamed.{with_defaults, all_default};

use spc_file::File;

// The defaults of the first stretch; that of every other unnamed byte is zero.
const FIRST_FOUR: [u8; 4] = [26, 26, 27, 30];

// Stores its default in every unnamed byte.
pub fn set_defaults(file: &mut File)
    ensures { file.new ≡ with_defaults file.old }
{
    file[33..37].copy_from_slice(&FIRST_FOUR);
    file[44..256].fill(0);
    file[65792..].fill(0);
}

// Whether every unnamed byte has its default.
pub fn has_defaults(file: &File) -> bool
    ensures { result ≡ all_default file.now }
{
    file[33..37] == FIRST_FOUR[..] && file[44..256] == [0; 212] && file[65792..] == [0; 256]
}
