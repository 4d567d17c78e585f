// The calls of a map, as a list of them has them.
ghost use Rattle.std.specs.Prelude.{◌≡◌};
ghost use Rattle.rate_map.specs.Told.{command, box_asked};

#[derive(Clone, Copy, Debug, PartialEq, Eq)]
pub enum Call<'a> {
    LayOut {
        grid: u32,
        limit: u32,
        sides: &'a [u32],
    },
    Split {
        number: u32,
        rate: u32,
        place: u32,
    },
    Safe {
        number: u32,
        v: &'a [u32],
    },
    Unsafe {
        number: u32,
        v: &'a [u32],
        w: &'a [u32],
    },
    Count,
    Find {
        number: u32,
    },
    Measure,
}

impl Call<'_> {
    // The box that a call asks for; 0 where it asks for none.
    pub fn box_asked(&self) -> u32
        ensures { result ≡ box_asked (command self.now) }
    {
        match self {
            Call::Find { number } => *number,
            _ => 0,
        }
    }
}
