// The functions that bodies name, while the bodies are read one after the other.
ghost use Rattle.std.specs.Prelude.{◌≤◌};

use image::Limits;

// What bounds the numbers in bodies, the function whose body is read, and marks of the functions that are named. As function 0 is never
// named well, its mark says that nesting is broken.
#[derive(Drop)]
pub struct BodyReader<const N: usize> {
    pub limits: Limits,
    pub function: u32,
    named: [bool; N],
    ghost room: { limits.functions ≤ N },
}

impl<const N: usize> BodyReader<N> {
    ghost use Rattle.std.specs.Prelude.{◌≡◌, ◌<◌, ◌^◌, ◌∷◌, [], false, slice_index_or};
    ghost use Rattle.std.proofs.Math.Option.{some};
    ghost use Rattle.image_instructions.specs.Marks.{Stands, Noting};

    // Before the first body: no function is named.
    pub fn new(limits: Limits) -> Self
        requires room { limits.functions ≤ N }
        requires few { N < 2 ^ 63 }
        ensures limits { result.limits ≡ limits }
        ensures unnamed { Stands result.named (some []) }
    {
        BodyReader {
            limits,
            function: 0,
            named: [false; N],
        }
    }

    // The body that is read names function g.
    pub fn note(&mut self, g: u32)
        requires { g < self.old.limits.functions }
        ensures { Noting (g ∷ []) self.old self.new }
    {
        let k = g as usize;
        if g <= self.function || self.named[k] {
            self.named[0] = true;
        } else {
            self.named[k] = true;
        }
    }

    // Whether a function is named by one of its own or a larger number, or is named twice.
    pub fn misnested(&self) -> bool
        requires { 0 < N }
        ensures { result ≡ slice_index_or self.now.named 0 false }
    {
        self.named[0]
    }
}
