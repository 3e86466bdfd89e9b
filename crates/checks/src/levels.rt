// What the type of a picture says of its levels, for proofs that bound sums.
#![tactic(auto)]

ghost use Rattle.spec_picture.specs.Picture.{Levels};

// Every level is of 16 bits. The loop stays for the proof alone, which knows what a level's type says once it is read; the compiler leaves no code of it.
pub fn levels_fit(f: &[i16])
    ensures { Levels f.now }
{
    for k in 0..f.len() {
        let level = f[k];
    }
}
