// The layers of a program, any of which may refuse.
ghost use Rattle.std.specs.Prelude.{◌≡◌};
ghost use Rattle.frames.specs.Faults.{layer_number};

// The lines and the input as a whole; the frames; the changes of the question; and solve.
#[derive(Clone, Copy, PartialEq, Eq, Debug)]
pub enum Layer {
    Lines = 1,
    Frames = 2,
    Changes = 3,
    Solve = 4,
}

impl Layer {
    // The number by which the layer is reported.
    pub fn number(self) -> u8
        ensures { result ≡ layer_number self }
    {
        self as u8
    }
}
